// The catalogue card of a fully inked repeat.
ghost use Rattle.std.specs.Prelude.{◌≡◌, IfOk};
ghost use Rattle.census.specs.Census.{Counted};

use super::picture::Picture;
use census::fault::WindowFault;
use census::repeats::Census;
use groups::tabled::Tabled;
use plane::cell::Cell;
use plane::rectangle::Rectangle;
use std::alloc::Global;
use std::fmt;

#[derive(Drop)]
pub struct Card {
    group: Tabled,
    census: Census,
    picture: Picture,
}

impl Card {
    // The card of a group, with its census.
    pub fn of(heap: Global, group: Tabled) -> Result<Card, WindowFault>
        ensures { IfOk result (λ c. (c.group ≡ group) × Counted group.group.number group.p group.q c.census.classes c.census.mirrored) }
    {
        let census = Census::of(&group);
        let repeat = Rectangle {
            corner: Cell { x: 0, y: 0 },
            width: i64::from(group.p()),
            height: i64::from(group.q()),
        };
        let picture = Picture::of(heap, &group, repeat)?;
        Ok(Card {
            group,
            census,
            picture,
        })
    }
}

impl fmt::Display for Card {
    fn fmt<W: fmt::Write>(&self, f: &mut fmt::Formatter<W>) -> fmt::Result {
        let symbol = self.group.symbol();
        let number = self.group.number();
        let p = self.group.p();
        let q = self.group.q();
        let positions = self.group.positions();
        let classes = self.census.classes;
        let mirrored = self.census.mirrored;
        write!(f, "\n  symbol      {symbol}")?;
        write!(f, "\n  number      {number}")?;
        write!(f, "\n  periods     {p} by {q}")?;
        write!(f, "\n  positions   {positions}")?;
        write!(f, "\n  classes     {classes}")?;
        write!(f, "\n  on mirrors  {mirrored}")?;
        let picture = &self.picture;
        write!(f, "{picture}")
    }
}
