// What a question is answered, as a line prints it.
use super::refusal::{Numbered, Refusal};
use cards::card::Card;
use cards::picture::Picture;
use lattice::reduced::Reduced;
use lines::line::Line;
use plane::fold::{Extent, Fold};
use plane::kinds::Kinds;
use std::fmt;

#[derive(Drop)]
pub enum Reply {
    Extent(Extent),
    Fold(Fold),
    Reduced(Reduced),
    Classes(Picture),
    Card(Card),
    Cells(Line),
    Help(&'static str),
}

// The kinds as digits in rising order.
#[derive(Clone, Copy)]
struct Digits(Kinds);

impl fmt::Display for Digits {
    fn fmt<W: fmt::Write>(&self, f: &mut fmt::Formatter<W>) -> fmt::Result {
        let kinds = [
            (self.0.even_proper, '0'),
            (self.0.even_improper, '1'),
            (self.0.odd_proper, '2'),
            (self.0.odd_improper, '3'),
        ];
        for (has, digit) in kinds {
            if has {
                write!(f, "{digit}")?;
            }
        }
        Ok(())
    }
}

// How many cells a line has, and each of them.
#[derive(Clone, Copy)]
struct Cells(Line);

impl fmt::Display for Cells {
    fn fmt<W: fmt::Write>(&self, f: &mut fmt::Formatter<W>) -> fmt::Result {
        let count = self.0.cells();
        write!(f, "{count}")?;
        for cell in self.0.iter() {
            let x = cell.x;
            let y = cell.y;
            write!(f, " {x},{y}")?;
        }
        Ok(())
    }
}

impl fmt::Display for Reply {
    fn fmt<W: fmt::Write>(&self, f: &mut fmt::Formatter<W>) -> fmt::Result {
        match self {
            Reply::Extent(extent) => {
                let span = extent.span;
                let hem = extent.hem;
                write!(f, "= ok {span} {hem}")
            }
            Reply::Fold(fold) => {
                let x = fold.home.x;
                let y = fold.home.y;
                let kinds = Digits(fold.kinds);
                write!(f, "= ok {x} {y} {kinds}")
            }
            Reply::Reduced(reduced) => {
                let p = reduced.p;
                let b = reduced.b;
                let d = reduced.d;
                write!(f, "= ok {p} {b} {d}")
            }
            Reply::Classes(picture) => {
                let count = picture.count;
                write!(f, "= ok {count}{picture}")
            }
            Reply::Card(card) => write!(f, "= ok{card}"),
            Reply::Cells(line) => {
                let cells = Cells(*line);
                write!(f, "= {cells}")
            }
            Reply::Help(help) => write!(f, "= ok{help}"),
        }
    }
}

// A question that is not answered, as a line prints it.
#[derive(Clone, Copy)]
pub struct Unanswered(pub Refusal);

impl fmt::Display for Unanswered {
    fn fmt<W: fmt::Write>(&self, f: &mut fmt::Formatter<W>) -> fmt::Result {
        let Some(number) = self.0.number() else {
            return write!(f, "= no memory");
        };
        match self.0 {
            // A card's refusal is said in words too.
            Refusal::Symbol(_) => {
                let words = self.0;
                write!(f, "= refused {number}: {words}")
            }
            _ => write!(f, "= refused {number}"),
        }
    }
}
