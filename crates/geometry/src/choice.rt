//! One of the three measures, chosen while the program runs.

ghost use Rattle.geometry.specs.Choice.{way_of};
ghost use Rattle.geometry.specs.declared.choice.Choice.TheVariants.{Euclidean, Manhattan, Chessboard};
ghost use Rattle.geometry.specs.Gaps.{squares_grow, squares_small, sum_grows, sum_small, greatest_grows, greatest_small};

use crate::chessboard::Chessboard;
use crate::combine::Combine;
use crate::euclidean::Euclidean;
use crate::gap::Gaps;
use crate::manhattan::Manhattan;

#[derive(Clone, Copy, PartialEq, Eq, Debug)]
pub enum Choice {
    Euclidean,
    Manhattan,
    Chessboard,
}

impl Combine for Choice {
    ghost way = { way_of };

    ghost grows = { elim [ Euclidean ↦ squares_grow | Manhattan ↦ sum_grows | Chessboard ↦ greatest_grows ] };

    ghost small = { elim [ Euclidean ↦ squares_small | Manhattan ↦ sum_small | Chessboard ↦ greatest_small ] };

    fn combine(&self, gaps: &Gaps) -> u64 {
        match self {
            Choice::Euclidean => Euclidean.combine(gaps),
            Choice::Manhattan => Manhattan.combine(gaps),
            Choice::Chessboard => Chessboard.combine(gaps),
        }
    }
}
