//! A limit, typed in digits.

ghost use Rattle.std.specs.Prelude.{◌≡◌};
ghost use Rattle.console.specs.Limit.{limit_of};

/// The longest limit that can be typed.
const MOST_DIGITS: usize = 16;

/// The number that 1 to 16 digits write. Leading zeros are fine. `str::parse` would take a leading plus as well, so the
/// digits would have to be tested first all the same.
#[tactic(auto, using(crate::proofs::Digits::all_read, crate::proofs::Digits::stopped), unfolding(crate::specs::Limit::limit_of))]
pub fn typed_limit(text: &[u8]) -> Option<u64>
    ensures { result ≡ limit_of text.now }
{
    if text.is_empty() || text.len() > MOST_DIGITS {
        return None;
    }
    let mut limit = 0u64;
    for byte in text {
        if !byte.is_ascii_digit() {
            return None;
        }
        limit = limit * 10 + u64::from(*byte - b'0');
    }
    Some(limit)
}
