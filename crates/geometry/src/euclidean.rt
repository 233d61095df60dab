//! The Euclidean measure, left squared.

ghost use Rattle.std.specs.Prelude.{◌≡◌, ◌*◌, ◌≤◌};
ghost use Rattle.geometry.specs.Range.{widest};
ghost use Rattle.geometry.specs.Distance.{sum_of_squares};
ghost use Rattle.geometry.specs.Gaps.{squares_grow, squares_small};

use crate::combine::Combine;
use crate::gap::Gaps;

/// The sum of the squares of the three gaps.
#[derive(Clone, Copy)]
pub struct Euclidean;

fn square(gap: u64) -> u64
    requires { gap ≤ widest }
    ensures value { result ≡ gap * gap }
    ensures bound { result ≤ widest * widest }
{
    gap * gap
}

impl Combine for Euclidean {
    ghost way = { λ _. sum_of_squares };

    ghost grows = { λ _. squares_grow };

    ghost small = { λ _. squares_small };

    fn combine(&self, gaps: &Gaps) -> u64 {
        square(gaps.easting) + square(gaps.northing) + square(gaps.level)
    }
}
