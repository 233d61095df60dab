//! Why a call refuses. The numbers are those that the console prints and that crews know by heart.

#![tactic(auto)]

pub mod hands;
mod print;
pub mod refusal;
#[cfg(test)]
mod tests;
