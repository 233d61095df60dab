//! A line's first word and the rest.

ghost use Rattle.std.specs.Prelude.{◌≡◌};
ghost use Rattle.line.specs.Words.{word_of, rest_of, is_word};

/// What stands before the first blank, and what stands after it. A line without a blank is one word and no rest.
#[tactic(auto, using(crate::proofs::Split::word_cut, crate::proofs::Split::rest_cut, crate::proofs::Split::word_whole, crate::proofs::Split::rest_none, std::proofs::lemmas::Slice::between_to_end))]
pub fn first_word(line: &[u8]) -> (&[u8], &[u8])
    ensures word { result.0.now ≡ word_of line.now }
    ensures rest { result.1.now ≡ rest_of line.now }
{
    match line.iter().position(|byte| *byte == b' ') {
        Some(blank) => (&line[..blank], &line[blank + 1..]),
        None => (line, &[]),
    }
}

/// Whether the text is one word: some bytes, and no blank among them.
pub fn is_word(text: &[u8]) -> bool
    ensures { result ≡ is_word text.now }
{
    !text.is_empty() && !text.contains(&b' ')
}
