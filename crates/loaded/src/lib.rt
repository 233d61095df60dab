//! The book that is loaded from a file.

#![tactic(auto)]

mod entries;
mod limits;
pub mod loaded;
mod nodes;
mod picks;
pub mod record;
mod sections;
mod tables;
