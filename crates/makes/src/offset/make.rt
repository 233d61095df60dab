//! Offsets from amounts that nobody has tested.

ghost use Rattle.std.specs.Prelude.{◌≡◌};
ghost use Rattle.refusal.specs.Told.{answered, typing_told};
ghost use Rattle.makes.specs.Offset.{offset_of};

use crate::offset::Offset;
use geometry::bounds::Point;
use refusal::hands::TypingFault;

impl Offset {
    /// The offset by these amounts.
    pub fn new(by: Point) -> Result<Offset, TypingFault>
        ensures { answered typing_told result ≡ offset_of by }
    {
        if by.in_range() {
            Ok(Offset { by })
        } else {
            Err(TypingFault::ShiftAmount)
        }
    }
}
