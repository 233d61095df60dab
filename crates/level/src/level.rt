//! A level that is in range.

pub mod make;
pub mod show;

ghost use Rattle.std.specs.Prelude.{◌≡◌, true};
ghost use Rattle.level.specs.Range.{is_level};

/// A level in hundredths of a foot. There is none out of range.
#[derive(Clone, Copy, PartialEq, Eq, Debug)]
pub struct Level {
    hundredths: i32,
    ghost in_range: { is_level hundredths ≡ true },
}
