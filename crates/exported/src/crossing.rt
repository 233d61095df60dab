//! What crosses to the caller and back.

ghost use Rattle.std.specs.Prelude.{◌≡◌};
ghost use Rattle.exported.specs.Input.{point_of};
ghost use Rattle.exported.specs.Rows.{told_row};

use browse::answer::Row;
use geometry::bounds::Point;

// The C interface, here and at `ToldRow`: plain fields in C's layout, which `Point` and `Row` do not promise.
/// A query, in hundredths of a foot; nobody has tested that it is in range.
#[repr(C)]
#[derive(Clone, Copy)]
pub struct QueryPoint {
    pub easting: i32,
    pub northing: i32,
    pub level: i32,
}

impl From<QueryPoint> for Point {
    ghost from_gives = { λ query point. point ≡ point_of query };

    fn from(query: QueryPoint) -> Point {
        Point {
            easting: query.easting,
            northing: query.northing,
            level: query.level,
        }
    }
}

/// A pick that is told: how far it is, its top and its number.
#[repr(C)]
#[derive(Clone, Copy)]
pub struct ToldRow {
    pub distance: u64,
    pub top: i32,
    pub pick: u16,
}

impl From<Row> for ToldRow {
    ghost from_gives = { λ row told. told ≡ told_row row };

    fn from(row: Row) -> ToldRow {
        ToldRow {
            distance: row.distance,
            top: row.top,
            pick: row.pick,
        }
    }
}

/// How a call went: a count and refusal 0, or the number of a refusal and no count. C has no Result.
#[repr(C)]
#[derive(Clone, Copy)]
pub struct Outcome {
    pub refusal: u8,
    pub count: usize,
}
