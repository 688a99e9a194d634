// The calls of a history and their answers, as data. What a sheet does not allow cannot be written.
ghost use Rattle.std.specs.Prelude.{◌≡◌, None};
ghost use Rattle.history.specs.Passed.{passed};

use plane::cell::Cell;
use plane::fold::FoldRefused;
use plane::rectangle::Rectangle;
use sheet::refusal::StrokeStopped;
use sheet::sheet::Quote;
use views::refusal::WindowRefused;

// A window: its rectangle, how many bytes of the lent palette it is given, from the first on, and how many of the lent output, after those of the windows before it.
#[derive(Clone, Copy)]
pub struct Window {
    pub rectangle: Rectangle,
    pub palette: usize,
    pub output: usize,
}

// The calls that every sheet allows.
#[derive(Clone, Copy)]
pub enum Look {
    Show(Cell),
    Window(Window),
}

// The calls that an open sheet allows.
#[derive(Clone, Copy)]
pub enum Drawing {
    Dot { at: Cell, ink: u8 },
    Line { from: Cell, to: Cell, ink: u8 },
    Look(Look),
}

// The calls that a closed sheet allows.
#[derive(Clone, Copy)]
pub enum Viewing {
    Look(Look),
    Quote,
}

// What a call answered.
#[derive(Clone, Copy)]
pub enum Answer {
    Stroked(Result<u16, StrokeStopped>),
    Shown(Result<u8, FoldRefused>),
    Windowed(Result<usize, WindowRefused>),
    Quoted(Quote),
}

// A call with its answer, once it has one.
#[derive(Clone, Copy)]
pub struct Answered<C> {
    pub call: C,
    pub answer: Option<Answer>,
}

// A call on an open sheet with its answer.
pub type Drawn = Answered<Drawing>;

// A call on a closed sheet with its answer.
pub type Viewed = Answered<Viewing>;

impl<C> Answered<C> {
    // A call that has no answer yet.
    pub fn of(call: C) -> Answered<C>
        ensures { result ≡ record { call = call; answer = None } }
    {
        Answered { call, answer: None }
    }
}

// The calls on the closed sheet of a history that does not close: there are none.
pub fn left_open<'a>() -> Option<&'a mut [Viewed]>
    ensures { passed result ≡ None }
{
    Option::None
}
