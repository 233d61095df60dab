//! What programs in C and Rust may call: the number of picks of a book's file, and the nearest picks of many queries.

#![tactic(auto)]

pub mod crossing;
pub mod exports;
mod fault;
mod input;
mod telling;
#[cfg(test)]
mod tests;
