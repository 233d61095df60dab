//! The lines of a day sheet.

use geometry::bounds::Point;

/// A line of the day sheet: what was picked and where, and whether it is marked.
#[derive(Clone, Copy, PartialEq, Eq, Debug)]
pub struct Record {
    // Any byte is lawful on a sheet: a narrower type would ask more of callers.
    pub kind: u8,
    pub point: Point,
    pub marked: bool,
}
