//! The Chessboard measure.

ghost use Rattle.geometry.specs.Distance.{greatest_of};
ghost use Rattle.geometry.specs.Gaps.{greatest_grows, greatest_small};

use crate::combine::Combine;
use crate::gap::Gaps;

/// The greatest of the three gaps.
#[derive(Clone, Copy)]
pub struct Chessboard;

impl Combine for Chessboard {
    ghost way = { λ _. greatest_of };

    ghost grows = { λ _. greatest_grows };

    ghost small = { λ _. greatest_small };

    fn combine(&self, gaps: &Gaps) -> u64 {
        gaps.easting.max(gaps.northing).max(gaps.level)
    }
}
