//! The check of a book: whether it is a tree that can be browsed, and if not, the first fault.

#![tactic(auto)]

mod marks;
mod named;
pub mod scan;
mod sound;
pub mod target;
