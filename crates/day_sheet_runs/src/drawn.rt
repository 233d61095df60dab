//! Sheets and queries, drawn.

use chance::chance::Chance;
use day_sheet::record::Record;
use geometry::bounds::Point;

// Few different coordinates, so that many records are equally far.
fn coordinate(chance: &mut Chance) -> i32 {
    chance.between(-4, 4)
}

pub(crate) fn point(chance: &mut Chance) -> Point {
    Point {
        easting: coordinate(chance),
        northing: coordinate(chance),
        level: coordinate(chance),
    }
}

/// A point with no coordinate below that of `low`.
pub(crate) fn point_beyond(chance: &mut Chance, low: Point) -> Point {
    Point {
        easting: low.easting.saturating_add(chance.between(0, 2)),
        northing: low.northing.saturating_add(chance.between(0, 2)),
        level: low.level.saturating_add(chance.between(0, 2)),
    }
}

fn record(chance: &mut Chance) -> Record {
    Record {
        kind: chance.between(1, 5) as u8,
        point: point(chance),
        marked: chance.once_in(2),
    }
}

pub(crate) fn fill(chance: &mut Chance, sheet: &mut [Record]) {
    sheet.fill_with(|| record(chance));
}
