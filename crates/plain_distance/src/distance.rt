//! The distance of two boxes by each measure, from the ends of the boxes and from nothing else.

ghost use Rattle.std.specs.Prelude.{◌≡◌, ◌*◌, ◌≤◌};
ghost use Rattle.plain_distance.specs.Plain.{apart, plain_distance};

use geometry::bounds::{Bounds, Span};
use geometry::choice::Choice;

// How far two stretches of an axis are apart.
fn apart(one: &Span, other: &Span) -> u64
    ensures value { result ≡ apart one.now other.now }
    ensures bound { result ≤ 20000000 }
{
    if one.high < other.low {
        u64::from(other.low.abs_diff(one.high))
    } else if other.high < one.low {
        u64::from(one.low.abs_diff(other.high))
    } else {
        0
    }
}

/// How far two boxes are apart.
pub fn plain_distance(choice: Choice, one: &Bounds, other: &Bounds) -> u64
    ensures { result ≡ plain_distance choice one.now other.now }
{
    let x = apart(&one.easting, &other.easting);
    let y = apart(&one.northing, &other.northing);
    let z = apart(&one.level, &other.level);
    match choice {
        Choice::Euclidean => x * x + y * y + z * z,
        Choice::Manhattan => x + y + z,
        Choice::Chessboard => x.max(y).max(z),
    }
}
