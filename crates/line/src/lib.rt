//! Lines that a hand types: words between blanks, and what they name.

#![tactic(auto)]

pub mod point;
pub mod words;
