//! Numbers marked by one bit each in words of 64 bits.

ghost use Rattle.std.specs.Prelude.{◌≡◌, ℕ, ◌*◌, ◌/◌, ◌<◌, ◌≤◌, ◌||◌, length, ◌==◌};
ghost use Rattle.book_check.specs.Below.{count_below};
ghost use Rattle.book_check.specs.Marks.{marked};

#[tactic(auto, unfolding(crate::specs::Marks::marked))]
pub(crate) fn is_marked(words: &[u64], number: u16) -> bool
    requires { number / 64 < length words.now }
    ensures { result ≡ marked words.now number }
{
    (words[number as usize / 64] >> (number % 64)) % 2 == 1
}

#[tactic(auto, using(crate::proofs::Bits::mark_after))]
pub(crate) fn mark(words: &mut [u64], number: u16)
    requires { number / 64 < length words.old }
    ensures { (k : ℕ) → marked words.new k ≡ (k == number) || marked words.old k }
{
    words[number as usize / 64] |= 1 << (number % 64);
}

/// How many numbers are marked.
pub(crate) fn count_marked(words: &[u64]) -> u16
    requires { length words.now ≤ 32 }
    ensures { result ≡ count_below (marked words.now) (length words.now * 64) }
{
    words.iter().map(|word| word.count_ones() as u16).sum()
}
