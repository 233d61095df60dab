//! Points and bounding boxes.

ghost use Rattle.std.specs.Prelude.{◌≤ℤ◌};
ghost use Rattle.geometry.specs.Range.{least_coordinate, most_coordinate};

mod make;

/// The least coordinate, in hundredths of a foot.
pub const LEAST: i32 = -10_000_000;
/// The greatest coordinate.
pub const MOST: i32 = 10_000_000;

/// Three numbers, one an axis, in hundredths of a foot; nobody has tested that they are in range.
#[derive(Clone, Copy, PartialEq, Eq, PartialOrd, Ord, Debug)]
pub struct Point {
    pub easting: i32,
    pub northing: i32,
    pub level: i32,
}

impl Point {
    /// The point where all three numbers are 0.
    pub const ORIGIN: Point = Point {
        easting: 0,
        northing: 0,
        level: 0,
    };
}

/// The coordinates from `low` to `high`, both included: one axis of a box.
#[derive(Clone, Copy, PartialEq, Eq, Debug)]
pub struct Span {
    pub low: i32,
    pub high: i32,
    ghost least: { least_coordinate ≤ℤ low },
    ghost ordered: { low ≤ℤ high },
    ghost most: { high ≤ℤ most_coordinate },
}

// no `Axes<T>`: it would take a map, a zip, one for options and an `all`, with contracts, for two uses each here
/// A bounding box. Each axis holds its own proof, so no box with ends out of order or out of range exists.
#[derive(Clone, Copy, PartialEq, Eq, Debug)]
pub struct Bounds {
    pub easting: Span,
    pub northing: Span,
    pub level: Span,
}
