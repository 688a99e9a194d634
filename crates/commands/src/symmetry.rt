// Symmetries as a line says them: a base, and layers over it, the lowest first.
use super::fields::{Fields, Read, Word};
use super::trouble::{Fault, Trouble, Wanted};
use groups::rules::GroupRefused;
use groups::tabled::Tabled;
use lattice::oblique::Oblique;
use lattice::refused::LatticeRefused;
use lattice::vectors::Vectors;
use layers::layer::Layer;
use layers::matrix::Matrix;
use layers::vector::Vector;
use pile::base::Base;
use pile::pile::Pile;
use pile::refused::PileRefused;
use std::alloc::Global;

// A base by its numbers.
#[derive(Clone, Copy)]
pub enum Ground {
    Tabled { number: i64, p: i64, q: i64 },
    Oblique(Vectors),
}

#[derive(Drop)]
pub struct Description {
    pub ground: Ground,
    pub layers: Vec<Layer>,
}

// Why a symmetry is not made, by what refuses it.
#[derive(Clone, Copy, PartialEq, Eq, Debug)]
pub enum SymmetryRefused {
    Group(GroupRefused),
    Lattice(LatticeRefused),
    Pile(PileRefused),
}

impl From<GroupRefused> for SymmetryRefused {
    fn from(why: GroupRefused) -> SymmetryRefused {
        SymmetryRefused::Group(why)
    }
}

impl From<LatticeRefused> for SymmetryRefused {
    fn from(why: LatticeRefused) -> SymmetryRefused {
        SymmetryRefused::Lattice(why)
    }
}

impl From<PileRefused> for SymmetryRefused {
    fn from(why: PileRefused) -> SymmetryRefused {
        SymmetryRefused::Pile(why)
    }
}

// Makes what was described, from the base up.
pub trait Make {
    fn make(&self, heap: Global) -> Result<Pile, SymmetryRefused>;
    // The plane group that it is, if it is one with no layers.
    fn group(&self) -> Option<Tabled>;
}

// What ends a symmetry on its line.
#[derive(Clone, Copy, PartialEq, Eq)]
pub enum End {
    Colon,
    Line,
}

// Reading a symmetry, and what ends it.
pub trait ReadSymmetry {
    fn symmetry(&mut self, heap: Global, end: End) -> Result<Description, Trouble>;
}

fn base(ground: Ground) -> Result<Base, SymmetryRefused> {
    match ground {
        Ground::Tabled { number, p, q } => Ok(Base::Tabled(Tabled::numbered(number, p, q)?)),
        Ground::Oblique(vectors) => Ok(Base::Oblique(Oblique::over(vectors)?)),
    }
}

impl Make for Description {
    fn make(&self, heap: Global) -> Result<Pile, SymmetryRefused> {
        let mut pile = Pile::over(base(self.ground)?, heap);
        for layer in &self.layers {
            pile.push(*layer)?;
        }
        Ok(pile)
    }

    fn group(&self) -> Option<Tabled> {
        match self.ground {
            Ground::Tabled { number, p, q } if self.layers.is_empty() => {
                Tabled::numbered(number, p, q).ok()
            }
            _ => None,
        }
    }
}

fn read_ground(fields: &mut Fields) -> Result<Ground, Trouble> {
    match fields.wanted(Wanted::Base)? {
        Word::Tabled => Ok(Ground::Tabled {
            number: fields.number()?,
            p: fields.number()?,
            q: fields.number()?,
        }),
        Word::Oblique => Ok(Ground::Oblique(fields.vectors()?)),
        _ => Err(fields.trouble(Fault::Other(Wanted::Base))),
    }
}

// A layer after the word that begins it.
fn read_layer(fields: &mut Fields, word: Word) -> Result<Layer, Trouble> {
    match word {
        Word::Shift => Ok(Layer::Shift(Vector {
            u: fields.number()?,
            v: fields.number()?,
        })),
        Word::Recast => Ok(Layer::Recast(Matrix {
            a: fields.number()?,
            b: fields.number()?,
            c: fields.number()?,
            d: fields.number()?,
        })),
        Word::Counterchange => Ok(Layer::Counterchange),
        _ => Err(fields.trouble(Fault::Other(Wanted::Layer))),
    }
}

impl ReadSymmetry for Fields<'_> {
    fn symmetry(&mut self, heap: Global, end: End) -> Result<Description, Trouble> {
        let ground = read_ground(self)?;
        let mut layers = Vec::new(heap);
        // no line has more fields than this
        for _ in 0..u64::MAX {
            let Some(word) = self.word() else {
                break;
            };
            if end == End::Colon && word == Word::Colon {
                return Ok(Description { ground, layers });
            }
            let layer = read_layer(self, word)?;
            layers
                .push(layer)
                .map_err(|_| self.trouble(Fault::NoMemory))?;
        }
        match end {
            End::Line => Ok(Description { ground, layers }),
            End::Colon => Err(self.missing(Wanted::Colon)),
        }
    }
}
