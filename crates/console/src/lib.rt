//! What a hand types at the console, and what the console says.

#![tactic(auto)]

pub mod command;
pub mod limit;
pub mod say;
pub mod state;
