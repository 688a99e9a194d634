// What a dye book does.
ghost use Rattle.std.specs.Prelude.{◌≡◌, min, length};
ghost use Rattle.dyes.specs.Book.{After, AfterText, BookLaws, add_answer, empty_book, lookup_answer, name_answer};
ghost use Rattle.dyes.specs.Dyes.{dye_book};

use super::super::name::DyeName;
use super::super::record::DyeRecord;
use super::super::refusal::DyeRefused;
use super::DyeBook;
use shelf::shelf::Shelf;

impl<'a> DyeBook<'a> {
    // An empty book over the caller's records.
    pub fn over(records: &'a mut [DyeRecord]) -> DyeBook<'a>
        ensures { dye_book result ≡ empty_book (min (length records.old) 15) }
    {
        let shelf = Shelf::over(records);
        DyeBook { shelf }
    }

    // The ink of a name: that which it has, or the next one for a new name.
    pub fn add(&mut self, text: &str) -> Result<u8, DyeRefused>
        ensures answer { result ≡ add_answer (dye_book self.old) text.now }
        ensures after { AfterText (dye_book self.old) text.now (dye_book self.new) }
        ensures laws { BookLaws (dye_book self.new) }
    {
        let name = text.parse::<DyeName>()?;
        self.add_name(name)
    }

    // The ink of a name, if it is there.
    pub fn lookup(&self, text: &str) -> Option<u8>
        ensures answer { result ≡ lookup_answer (dye_book self.now) text.now }
        ensures laws { BookLaws (dye_book self.now) }
    {
        let name = text.parse::<DyeName>().ok()?;
        self.ink(name)
    }

    // How many names are there.
    pub fn count(&self) -> usize
        ensures { result ≡ (dye_book self.now).count }
    {
        self.shelf.len()
    }

    // The ink of a name, if it is there.
    fn ink(&self, name: DyeName) -> Option<u8>
        ensures { result ≡ (dye_book self.now).ink name }
    {
        let found = self.shelf.find(name)?;
        Some(found.ink)
    }

    // The ink of a name, which is added if it is new.
    fn add_name(&mut self, name: DyeName) -> Result<u8, DyeRefused>
        ensures answer { result ≡ name_answer (dye_book self.old) name }
        ensures after { After (dye_book self.old) name (dye_book self.new) }
    {
        if let Some(ink) = self.ink(name) {
            return Ok(ink);
        }
        let count = self.count();
        if count >= 15 {
            return Err(DyeRefused::Full);
        }
        let ink = count as u8 + 1;
        self.shelf.insert(DyeRecord { name, ink })?;
        Ok(ink)
    }
}
