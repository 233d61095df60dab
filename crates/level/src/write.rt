//! Writing a level into the caller's bytes.

ghost use Rattle.std.specs.Prelude.{◌≡◌, length};
ghost use Rattle.refusal.specs.Told.{answered, told};
ghost use Rattle.level.specs.Write.{writes, written};

use crate::range::is_level;
use crate::text::{put_text, text_length};
use refusal::hands::{SliceFault, TypingFault};
use refusal::refusal::Refusal;

/// Writes `level` to the start of `out`, and answers how many bytes that took.
pub fn write_level(level: i32, out: &mut [u8]) -> Result<usize, Refusal>
    ensures answer { answered told result ≡ writes level (length out.old) }
    ensures bytes { out.new ≡ written level out.old }
{
    if !is_level(level) {
        return Err(Refusal::Typing(TypingFault::OutOfRange));
    }
    let size = text_length(level);
    if out.len() < size {
        return Err(Refusal::Slice(SliceFault::TooShort));
    }
    put_text(level, &mut out[..size]);
    Ok(size)
}
