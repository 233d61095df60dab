//! Levels on paper: hundredths of a foot, written with a point and two digits.

#![tactic(auto)]

pub mod level;
pub mod range;
pub mod read;
#[cfg(test)]
mod tests;
mod text;
pub mod write;
