//! The text of a level.

ghost use Rattle.std.specs.Prelude.{◌≡◌, ◌+◌, ◌%◌, ◌≤◌, length, decimal};
ghost use Rattle.std.specs.Str.{IsUtf8};
ghost use Rattle.level.specs.Write.{level_text};

/// Room for a minus, the eight digits that whole feet can have, a point and two digits.
pub(crate) const ROOM: usize = 12;

/// How many digits `number` has.
fn digit_count(number: u32) -> usize
    ensures value { result ≡ length (decimal number) }
    ensures bound { result ≤ 10 }
{
    let mut count = 1;
    let mut left = number;
    while left >= 10 {
        left /= 10;
        count += 1;
    }
    count
}

/// How many bytes the text of `level` has: a minus, the feet, the point and two digits.
pub(crate) fn text_length(level: i32) -> usize
    ensures value { result ≡ length (level_text level) }
    ensures bound { result ≤ ROOM }
{
    usize::from(level < 0) + digit_count(level.unsigned_abs() / 100) + 3
}

/// The last digit of `number`.
fn last_digit(number: u32) -> u8
    ensures { result ≡ 48 + number % 10 }
{
    b'0' + (number % 10) as u8
}

/// Puts the text of `level`, in range or not, into `out`, from its end on.
pub(crate) fn put_text(level: i32, out: &mut [u8])
    requires { length out.old ≡ length (level_text level) }
    ensures { out.new ≡ level_text level }
{
    let hundredths = level.unsigned_abs();
    let size = out.len();
    out[size - 1] = last_digit(hundredths);
    out[size - 2] = last_digit(hundredths / 10);
    out[size - 3] = b'.';
    let mut at = size - 4;
    let mut feet = hundredths / 100;
    while feet >= 10 {
        out[at] = last_digit(feet);
        feet /= 10;
        at -= 1;
    }
    out[at] = last_digit(feet);
    // not the sign of the whole feet: -35 has none of those, and still its minus
    if level < 0 {
        out[0] = b'-';
    }
}

/// The text of `level`, in range or not, put into `room`.
pub(crate) fn level_text(level: i32, room: &mut [u8; ROOM]) -> &[u8]
    ensures text { result.now ≡ level_text level }
    ensures utf8 { IsUtf8 result.now }
{
    let text = &mut room[..text_length(level)];
    put_text(level, text);
    text
}
