//! Books made from others, and from a casing string.

#![tactic(auto)]

pub mod join;
pub mod offset;
mod seam;
pub mod shift;
pub mod sixteens;
mod smallest;
pub mod tally;
#[cfg(test)]
mod tests;
