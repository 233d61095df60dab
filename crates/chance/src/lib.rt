//! Numbers that look random and are the same in every run.

#![tactic(auto)]

pub mod chance;
