//! Tallies from numbers that nobody has tested.

ghost use Rattle.std.specs.Prelude.{◌≡◌};
ghost use Rattle.refusal.specs.Told.{answered, typing_told};
ghost use Rattle.makes.specs.Tallies.{tally_of};

use crate::tally::{Joints, Tally};
use geometry::bounds::Point;
use refusal::hands::TypingFault;

impl Tally {
    /// The string of so many joints of this length, hanging from `top`.
    pub fn new(top: Point, joints: u16, length: u32) -> Result<Tally, TypingFault>
        ensures { answered typing_told result ≡ tally_of top joints length }
    {
        let joints = Joints::new(joints, length).ok_or(TypingFault::Tally)?;
        if joints.hangs(&top) {
            Ok(Tally { top, joints })
        } else {
            Err(TypingFault::OutOfRange)
        }
    }
}
