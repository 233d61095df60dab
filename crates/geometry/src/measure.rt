//! What a measure is.

ghost use Rattle.std.specs.Prelude.{◌≡◌, ℕ, ◌^◌, ◌<◌, ◌≤◌};
ghost use Rattle.geometry.specs.declared.bounds.Bounds.{Bounds as BoxOf};
ghost use Rattle.geometry.specs.Within.{Within};

use crate::bounds::Bounds;

/// How near a box is to a query box, as a number of 64 bits. Browsing rests on the laws here and on nothing else
/// about a measure.
pub trait Measure {
    ghost distance: { Self → BoxOf → BoxOf → ℕ };

    fn distance(&self, query: &Bounds, bounds: &Bounds) -> u64
        ensures value { result ≡ distance self.now query.now bounds.now };

    // a box within another is never nearer than it
    ghost monotone: { (m : Self) (q outer inner : BoxOf) → Within inner outer → distance m q outer ≤ distance m q inner };

    ghost fits: { (m : Self) (q b : BoxOf) → distance m q b < 2 ^ 64 };
}
