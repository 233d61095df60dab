//! One priority queue for any element with a total order, kept in places that the caller lends.

#![tactic(auto)]

pub mod heap;
pub mod order;
#[cfg(test)]
mod tests;
