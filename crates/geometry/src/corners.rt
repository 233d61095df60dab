//! The two corners of a box.

ghost use Rattle.std.specs.Prelude.{◌≡◌};
ghost use Rattle.geometry.specs.Ends.{low_ends, high_ends};

use crate::bounds::{Bounds, Point};

impl Bounds {
    /// The low corner: the low end on each axis.
    pub fn low(&self) -> Point
        ensures { result ≡ low_ends self.now }
    {
        Point {
            easting: self.easting.low,
            northing: self.northing.low,
            level: self.level.low,
        }
    }

    /// The high corner: the high end on each axis.
    pub fn high(&self) -> Point
        ensures { result ≡ high_ends self.now }
    {
        Point {
            easting: self.easting.high,
            northing: self.northing.high,
            level: self.level.high,
        }
    }
}
