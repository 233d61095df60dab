//! A level made of a number, and back.

ghost use Rattle.std.specs.Prelude.{◌≡◌};
ghost use Rattle.level.specs.Level.{measured, measures};

use crate::level::Level;
use crate::range::is_level;
use refusal::hands::TypingFault;

impl TryFrom<i32> for Level {
    type Error = TypingFault;

    ghost try_from_gives = { λ hundredths level. measured level ≡ measures hundredths };

    fn try_from(hundredths: i32) -> Result<Level, TypingFault> {
        if is_level(hundredths) {
            Ok(Level { hundredths })
        } else {
            Err(TypingFault::OutOfRange)
        }
    }
}

impl From<Level> for i32 {
    ghost from_gives = { λ level hundredths. hundredths ≡ level.hundredths };

    fn from(level: Level) -> i32 {
        level.hundredths
    }
}
