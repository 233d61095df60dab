//! Boxes as plain numbers.

use chance::chance::Chance;
use geometry::bounds::{Bounds, LEAST, MOST, Point};
use refusal::hands::TypingFault;

/// A box; nothing keeps its ends in order or in range.
#[derive(Clone, Copy, PartialEq, Eq, PartialOrd, Ord)]
pub struct Extent {
    pub low: Point,
    pub high: Point,
}

/// Which boxes are drawn: corners on a grid around the origin, and edges up to a length.
#[derive(Clone, Copy)]
pub struct Field {
    /// The distance of two neighbours on the grid.
    pub step: i32,
    /// How many steps the grid goes, either way.
    pub steps: i32,
    /// The longest edge of a box, in steps.
    pub longest: i32,
}

// A point from two, each number from theirs.
fn each<F: Fn(i32, i32) -> i32>(one: Point, other: Point, put: F) -> Point
    requires { F.IsAlwaysCallable put }
{
    Point {
        easting: put(one.easting, other.easting),
        northing: put(one.northing, other.northing),
        level: put(one.level, other.level),
    }
}

// Each number farther by an amount from `least` to `most`, within the range.
fn pushed(point: Point, chance: &mut Chance, least: i32, most: i32) -> Point {
    let amount = Point {
        easting: chance.between(least, most),
        northing: chance.between(least, most),
        level: chance.between(least, most),
    };
    each(point, amount, |number, amount| {
        number.saturating_add(amount).clamp(LEAST, MOST)
    })
}

impl From<&Bounds> for Extent {
    fn from(bounds: &Bounds) -> Extent {
        Extent {
            low: bounds.low(),
            high: bounds.high(),
        }
    }
}

impl TryFrom<Extent> for Bounds {
    type Error = TypingFault;

    fn try_from(extent: Extent) -> Result<Bounds, TypingFault> {
        Bounds::new(extent.low, extent.high)
    }
}

impl Extent {
    /// The smallest box around two.
    pub(crate) fn around(self, other: Extent) -> Extent {
        Extent {
            low: each(self.low, other.low, |one, other| one.min(other)),
            high: each(self.high, other.high, |one, other| one.max(other)),
        }
    }

    /// A box around this one, farther out by up to so much at each end.
    pub(crate) fn loosened(self, chance: &mut Chance, slack: i32) -> Extent {
        Extent {
            low: pushed(self.low, chance, slack.saturating_neg(), 0),
            high: pushed(self.high, chance, 0, slack),
        }
    }
}

impl Field {
    /// The whole range.
    pub const WHOLE: Field = Field {
        step: 1,
        steps: 10_000_000,
        longest: 100_000,
    };

    fn coordinate(&self, chance: &mut Chance) -> i32 {
        chance
            .between(self.steps.saturating_neg(), self.steps)
            .saturating_mul(self.step)
    }

    fn edge(&self, chance: &mut Chance) -> i32 {
        chance.between(0, self.longest).saturating_mul(self.step)
    }

    /// A box of this field; often a point.
    pub(crate) fn draw(&self, chance: &mut Chance) -> Extent {
        let low = Point {
            easting: self.coordinate(chance),
            northing: self.coordinate(chance),
            level: self.coordinate(chance),
        };
        if chance.once_in(2) {
            return Extent { low, high: low };
        }
        let edges = Point {
            easting: self.edge(chance),
            northing: self.edge(chance),
            level: self.edge(chance),
        };
        let high = each(low, edges, |low, edge| low.saturating_add(edge).min(MOST));
        Extent { low, high }
    }
}
