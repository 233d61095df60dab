//! How far down and up a level may lie.

ghost use Rattle.std.specs.Prelude.{◌≡◌};
ghost use Rattle.level.specs.Range.{is_level};

// Apart from geometry's LEAST and MOST, which have the same values: a wider paper does not widen the field.
/// The lowest level, in hundredths of a foot.
pub const LEVEL_LEAST: i32 = -10_000_000;

/// The highest level, in hundredths of a foot.
pub const LEVEL_MOST: i32 = 10_000_000;

/// Whether so many hundredths of a foot are a level.
pub fn is_level(hundredths: i32) -> bool
    ensures { result ≡ is_level hundredths }
{
    (LEVEL_LEAST..=LEVEL_MOST).contains(&hundredths)
}
