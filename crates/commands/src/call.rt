// The calls on a sheet.
use super::fields::{Fields, Read, Target};
use super::trouble::Trouble;
use history::calls::{Drawing, Look, Window};
use plane::cell::Cell;
use plane::rectangle::Rectangle;

#[derive(Clone, Copy)]
pub enum Call {
    Stroke(Drawing),
    Look(Look),
    // A window that goes to the file that is named last on the line.
    Picture(Window),
    Close,
    Quote,
}

// Reading what follows a call's name.
pub trait ReadCall {
    fn dot(&mut self) -> Result<Call, Trouble>;

    fn line(&mut self) -> Result<Call, Trouble>;

    fn show(&mut self) -> Result<Call, Trouble>;

    fn window(&mut self) -> Result<Call, Trouble>;
}

// The most bytes that a picture of a rectangle takes, wherever it lies: 15 before the cells, and three for each.
fn picture_size(rectangle: Rectangle) -> usize {
    let corner = Cell { x: 0, y: 0 };
    let sides = Rectangle {
        corner,
        ..rectangle
    };
    match sides.within(u32::MAX) {
        Ok(window) => 15 + 3 * usize::from(window.width) * usize::from(window.height),
        Err(_) => 0,
    }
}

impl ReadCall for Fields<'_> {
    fn dot(&mut self) -> Result<Call, Trouble> {
        let ink = self.ink()?;
        let at = self.cell()?;
        Ok(Call::Stroke(Drawing::Dot { at, ink }))
    }

    fn line(&mut self) -> Result<Call, Trouble> {
        let ink = self.ink()?;
        let from = self.cell()?;
        let to = self.cell()?;
        Ok(Call::Stroke(Drawing::Line { from, to, ink }))
    }

    fn show(&mut self) -> Result<Call, Trouble> {
        let at = self.cell()?;
        Ok(Call::Look(Look::Show(at)))
    }

    fn window(&mut self) -> Result<Call, Trouble> {
        let rectangle = self.rectangle()?;
        match self.target()? {
            Target::File => Ok(Call::Picture(Window {
                rectangle,
                palette: 48,
                output: picture_size(rectangle),
            })),
            Target::Palette(palette) => Ok(Call::Look(Look::Window(Window {
                rectangle,
                palette,
                output: self.output()?,
            }))),
        }
    }
}
