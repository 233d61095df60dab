//! Offsets put together, and what that does to a book.

ghost use Rattle.std.specs.Prelude.{◌≡◌};
ghost use Rattle.book.specs.Model.{Model};
ghost use Rattle.geometry.specs.Moved.{moved_point};
ghost use Rattle.refusal.specs.Told.{answered, typing_told};
ghost use Rattle.makes.specs.Offset.{offset_of, no_move, opposite};
ghost use Rattle.makes.specs.Shift.{shifted, Stays, AtOnce};

use crate::offset::Offset;
use geometry::bounds::Point;
use refusal::hands::TypingFault;

impl Offset {
    /// No move at all.
    pub fn none() -> Offset
        ensures value { result.by ≡ no_move }
        ensures same { (m : Model) → shifted result.by m ≡ m }
    {
        Offset { by: Point::ORIGIN }
    }

    /// The way back. It undoes this offset where no box left the range.
    pub fn back(&self) -> Offset
        ensures value { result.by ≡ opposite self.now.by }
        ensures undoes { (m : Model) → Stays self.now.by m → shifted result.by (shifted self.now.by m) ≡ m }
    {
        Offset {
            by: Point {
                easting: -self.by.easting,
                northing: -self.by.northing,
                level: -self.by.level,
            },
        }
    }

    /// This offset and then another, as one. It is the same where no box leaves the range on the way.
    pub fn then(&self, next: &Offset) -> Result<Offset, TypingFault>
        ensures value { answered typing_told result ≡ offset_of (moved_point self.now.by next.now.by) }
        ensures once { AtOnce self.now.by next.now.by result }
    {
        // The only sum of two points in any crate: `Add` for `Point` would be no plainer.
        Offset::new(Point {
            easting: self.by.easting + next.by.easting,
            northing: self.by.northing + next.by.northing,
            level: self.by.level + next.by.level,
        })
    }
}
