//! Boxes from numbers that nobody has tested.

ghost use Rattle.std.specs.Prelude.{◌≡◌};
ghost use Rattle.geometry.specs.Range.{in_range};
ghost use Rattle.geometry.specs.Bounds.{span_at, bounds_at, point_in_range, bounds_of};
ghost use Rattle.refusal.specs.Told.{answered, typing_told};

use crate::bounds::{Bounds, LEAST, MOST, Point, Span};
use refusal::hands::TypingFault;

impl Point {
    /// Whether all three numbers are coordinates.
    pub fn in_range(&self) -> bool
        ensures { result ≡ point_in_range self.now }
    {
        coordinate(self.easting) && coordinate(self.northing) && coordinate(self.level)
    }
}

fn coordinate(x: i32) -> bool
    ensures { result ≡ in_range x }
{
    (LEAST..=MOST).contains(&x)
}

impl Span {
    /// The span with these ends, where there is one.
    #[tactic(auto, using(crate::proofs::Spans::no_span))]
    pub fn new(low: i32, high: i32) -> Option<Span>
        ensures { result ≡ span_at low high }
    {
        // `then` was tried: its closure's inferred `requires` leaves out a span's facts; written out, it is no plainer
        if LEAST <= low && low <= high && high <= MOST {
            Some(Span { low, high })
        } else {
            None
        }
    }
}

impl Bounds {
    /// The box with these corners, where there is one.
    pub fn between(low: Point, high: Point) -> Option<Bounds>
        ensures { result ≡ bounds_at low high }
    {
        let easting = Span::new(low.easting, high.easting);
        let northing = Span::new(low.northing, high.northing);
        let level = Span::new(low.level, high.level);
        // One way out for all three, in place of a `?` at each: the tests of a box then take fewer instructions.
        match (easting, northing, level) {
            (Some(easting), Some(northing), Some(level)) => Some(Bounds {
                easting,
                northing,
                level,
            }),
            _ => None,
        }
    }

    /// The box with these corners. All six ends are tested for their range before any two are compared.
    #[tactic(auto, unfolding(crate::specs::Bounds::bounds_of))]
    pub fn new(low: Point, high: Point) -> Result<Bounds, TypingFault>
        ensures { answered typing_told result ≡ bounds_of low high }
    {
        if !(low.in_range() && high.in_range()) {
            return Err(TypingFault::OutOfRange);
        }
        Bounds::between(low, high).ok_or(TypingFault::Reversed)
    }

    /// The box that is one point.
    pub fn at(point: Point) -> Result<Bounds, TypingFault>
        ensures { answered typing_told result ≡ bounds_of point point }
    {
        Bounds::new(point, point)
    }
}
