//! Whether one box lies within another.

ghost use Rattle.std.specs.Prelude.{◌≡◌, Decides};
ghost use Rattle.geometry.specs.Contains.{covers, contains as containsBox};
ghost use Rattle.geometry.specs.Within.{Within};

use crate::bounds::{Bounds, Span};

impl Span {
    fn covers(&self, inner: &Span) -> bool
        ensures { result ≡ covers self.now inner.now }
    {
        self.low <= inner.low && inner.high <= self.high
    }
}

impl Bounds {
    /// Whether the other box lies within this one. Ends are included.
    #[tactic(auto, unfolding(crate::specs::Contains::contains))]
    pub fn contains(&self, inner: &Bounds) -> bool
        ensures value { result ≡ containsBox self.now inner.now }
        ensures within { Decides result (Within inner.now self.now) }
    {
        self.easting.covers(&inner.easting)
            && self.northing.covers(&inner.northing)
            && self.level.covers(&inner.level)
    }
}
