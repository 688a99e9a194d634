// The answers to questions.
use super::refusal::Refusal;
use super::reply::Reply;
use cards::card::Card;
use cards::picture::Picture;
use commands::command::Question;
use commands::symmetry::Make;
use lattice::reduced::reduce;
use lines::line::Line;
use plane::symmetry::Symmetry;
use std::alloc::Global;

pub trait Ask {
    // The answer; a call for help is answered with the list that is given.
    fn reply(self, heap: Global, help: &'static str) -> Result<Reply, Refusal>;
}

impl Ask for Question {
    fn reply(self, heap: Global, help: &'static str) -> Result<Reply, Refusal> {
        match self {
            Question::Make(symmetry) => Ok(Reply::Extent(symmetry.make(heap)?.extent())),
            Question::Fold(symmetry, at) => Ok(Reply::Fold(symmetry.make(heap)?.fold(at)?)),
            Question::Classes(symmetry, rectangle) => {
                let pile = symmetry.make(heap)?;
                Ok(Reply::Classes(Picture::of(heap, &pile, rectangle)?))
            }
            Question::Reduce(vectors) => Ok(Reply::Reduced(reduce(vectors)?)),
            Question::Card(made) => {
                let group = made.map_err(Refusal::Symbol)?;
                Ok(Reply::Card(Card::of(heap, group)?))
            }
            Question::Cells { from, to } => Ok(Reply::Cells(Line::between(from, to)?)),
            Question::Help => Ok(Reply::Help(help)),
        }
    }
}
