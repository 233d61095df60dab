//! Measures that put the gaps on the three axes together.

ghost use Rattle.std.specs.Prelude.{◌≡◌, ◌^◌, ◌<◌};
ghost use Rattle.geometry.specs.Range.{widest};
ghost use Rattle.geometry.specs.Distance.{Way, box_distance};
ghost use Rattle.geometry.specs.Nearest.{Least};
ghost use Rattle.geometry.specs.Gaps.{Grows, monotone as never_nearer, fits as fits_by};

use crate::bounds::Bounds;
use crate::gap::Gaps;
use crate::measure::Measure;

/// A way of putting three gaps together. Each is a measure.
pub trait Combine {
    ghost way: { Self → Way };

    fn combine(&self, gaps: &Gaps) -> u64
        ensures { result ≡ way self.now gaps.now.easting gaps.now.northing gaps.now.level };

    // a wider gap gives no less
    ghost grows: { (c : Self) → Grows (way c) };

    // three gaps over the whole range fit 64 bits
    ghost small: { (c : Self) → way c widest widest widest < 2 ^ 64 };
}

impl<C: Combine> Measure for C {
    ghost distance = { λ c q b. box_distance (C.way c) q b };

    ghost monotone = { λ c q outer inner w. never_nearer (C.way c) (C.grows c) q outer inner w };

    ghost fits = { λ c q b. fits_by (C.way c) (C.grows c) (C.small c) q b };

    fn distance(&self, query: &Bounds, bounds: &Bounds) -> u64
        ensures value { result ≡ box_distance (C.way self.now) query.now bounds.now }
        ensures least { Least (C.way self.now) query.now bounds.now result }
    {
        self.combine(&query.gaps(bounds))
    }
}
