//! A casing string.

ghost use Rattle.std.specs.Prelude.{◌≡◌, true};
ghost use Rattle.makes.specs.Tally.{sized, hangs};

use geometry::bounds::Point;

mod answers;
mod collars;
mod make;

/// So many joints of one length, 1 to 1,000 of 1 to 5,000 hundredths of a foot.
#[derive(Clone, Copy)]
pub(crate) struct Joints {
    pub count: u16,
    pub length: u32,
    ghost sizes: { sized count length ≡ true },
}

/// Joints of one length, hanging from a point. Every collar is a pick.
#[derive(Clone, Copy)]
pub struct Tally {
    top: Point,
    joints: Joints,
    ghost hung: { hangs top joints.count joints.length ≡ true },
}
