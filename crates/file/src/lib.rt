//! The file form of a book, and any book put into it.

#![tactic(auto)]

mod entries;
mod nodes;
mod pen;
mod picks;
pub mod write_out;
