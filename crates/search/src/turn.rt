//! The turns that two hands take at one search.

/// Who calls.
#[derive(Clone, Copy, PartialEq, Eq, Debug)]
pub enum Hand {
    Day,
    Evening,
}

/// What is asked.
#[derive(Clone, Copy, PartialEq, Eq, Debug)]
pub enum Call {
    /// The nearest row not yet told that is no farther than this limit.
    Next(u64),
    /// How many rows were told and how many nodes opened.
    Report,
}

/// One call by one hand.
#[derive(Clone, Copy, PartialEq, Eq, Debug)]
pub struct Turn {
    pub hand: Hand,
    pub call: Call,
}
