//! The smallest box around two.

ghost use Rattle.std.specs.Prelude.{◌≡◌, Some};
ghost use Rattle.geometry.specs.Around.{span_around, bounds_around, SmallestSpan, SmallestBox};

use crate::bounds::{Bounds, Span};

impl Span {
    /// The smallest span around this one and another.
    pub fn around(&self, other: &Span) -> Span
        ensures value { Some result ≡ span_around self.now other.now }
        ensures smallest { SmallestSpan self.now other.now result }
    {
        Span {
            low: self.low.min(other.low),
            high: self.high.max(other.high),
        }
    }
}

impl Bounds {
    /// The smallest box around this one and another.
    pub fn around(&self, other: &Bounds) -> Bounds
        ensures value { Some result ≡ bounds_around self.now other.now }
        ensures smallest { SmallestBox self.now other.now result }
    {
        Bounds {
            easting: self.easting.around(&other.easting),
            northing: self.northing.around(&other.northing),
            level: self.level.around(&other.level),
        }
    }
}
