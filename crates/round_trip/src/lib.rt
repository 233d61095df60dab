//! A book through its file form and back.

#![tactic(auto)]

pub mod copy;
