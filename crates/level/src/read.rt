//! Reading a level from its text.

ghost use Rattle.std.specs.Prelude.{◌≡◌, ◌^◌, ◌<◌, ◌≤◌, length, Decides};
ghost use Rattle.refusal.specs.Told.{answered, typing_told};
ghost use Rattle.level.specs.Read.{longest_text, digits_spell, spelt, reads, TextOf, ReadingLaw, RoundTrip, NoTwoShareAText};

use crate::range::is_level;
use crate::text::{ROOM, level_text};
use refusal::hands::TypingFault;

/// No level has a longer text.
const LONGEST: usize = 10;

/// The number that the digits of `text` spell, whatever stands between them.
fn digits_spell(text: &[u8]) -> u64
    requires { length text.now ≤ longest_text }
    ensures value { result ≡ digits_spell 0 text.now }
    ensures bound { result < 10 ^ longest_text }
{
    text.iter()
        .filter(|byte| byte.is_ascii_digit())
        .fold(0, |sum, byte| sum * 10 + u64::from(*byte - b'0'))
}

/// The one level that `text` can be the text of.
fn candidate(text: &[u8]) -> i64
    requires { length text.now ≤ longest_text }
    ensures { result ≡ spelt text.now }
{
    let sum = digits_spell(text) as i64;
    if text.starts_with(b"-") { -sum } else { sum }
}

/// Whether `level` is a level, and `text` its text.
fn is_text_of(text: &[u8], level: i32) -> bool
    ensures { Decides result (TextOf text.now level) }
{
    is_level(level) && level_text(level, &mut [0; ROOM]) == text
}

/// Reads a level: takes the texts that `level_text` makes of levels, and no others.
#[tactic(auto, using(crate::proofs::Reading::too_long, crate::proofs::Reading::obeys, crate::proofs::Reading::round_trip, crate::proofs::Reading::no_two_share))]
pub fn read_level(text: &[u8]) -> Result<i32, TypingFault>
    ensures answer { answered typing_told result ≡ reads text.now }
    ensures law { ReadingLaw text.now (answered typing_told result) }
    ensures round_trip { RoundTrip }
    ensures distinct { NoTwoShareAText }
{
    if text.len() > LONGEST {
        return Err(TypingFault::NotALevel);
    }
    i32::try_from(candidate(text))
        .ok()
        .filter(|level| is_text_of(text, *level))
        .ok_or(TypingFault::NotALevel)
}
