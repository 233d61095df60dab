//! How far apart two boxes are on each axis.

ghost use Rattle.std.specs.Prelude.{◌≡◌, ◌≤◌};
ghost use Rattle.geometry.specs.Range.{widest};
ghost use Rattle.geometry.specs.Gap.{gap as gap_of};

use crate::bounds::{Bounds, Span};

/// The gaps of two boxes, one an axis. None is wider than the range of coordinates.
#[derive(Clone, Copy, PartialEq, Eq, Debug)]
pub struct Gaps {
    pub easting: u64,
    pub northing: u64,
    pub level: u64,
    ghost easting_within: { easting ≤ widest },
    ghost northing_within: { northing ≤ widest },
    ghost level_within: { level ≤ widest },
}

impl Span {
    /// 0 if the two share a coordinate, else the difference of the two nearer ends.
    pub fn gap(&self, other: &Span) -> u64
        ensures value { result ≡ gap_of self.now other.now }
        ensures bound { result ≤ widest }
    {
        let above = other.low - self.high;
        let below = self.low - other.high;
        above.max(below).max(0) as u64
    }
}

impl Bounds {
    /// The gaps of this box and another.
    pub fn gaps(&self, other: &Bounds) -> Gaps
        ensures easting { result.easting ≡ gap_of self.now.easting other.now.easting }
        ensures northing { result.northing ≡ gap_of self.now.northing other.now.northing }
        ensures level { result.level ≡ gap_of self.now.level other.now.level }
    {
        Gaps {
            easting: self.easting.gap(&other.easting),
            northing: self.northing.gap(&other.northing),
            level: self.level.gap(&other.level),
        }
    }
}
