//! The Manhattan measure.

ghost use Rattle.geometry.specs.Distance.{sum_of};
ghost use Rattle.geometry.specs.Gaps.{sum_grows, sum_small};

use crate::combine::Combine;
use crate::gap::Gaps;

/// The sum of the three gaps.
#[derive(Clone, Copy)]
pub struct Manhattan;

impl Combine for Manhattan {
    ghost way = { λ _. sum_of };

    ghost grows = { λ _. sum_grows };

    ghost small = { λ _. sum_small };

    fn combine(&self, gaps: &Gaps) -> u64 {
        gaps.easting + gaps.northing + gaps.level
    }
}
