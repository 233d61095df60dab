//! How far a book is shifted.

ghost use Rattle.std.specs.Prelude.{◌≡◌, true};
ghost use Rattle.geometry.specs.Bounds.{point_in_range};

use geometry::bounds::Point;

mod make;
mod sums;

/// Three amounts, one an axis. Each has been tested: it is no greater, either way, than a coordinate may be.
#[derive(Clone, Copy)]
pub struct Offset {
    pub by: Point,
    ghost tested: { point_in_range by ≡ true },
}
