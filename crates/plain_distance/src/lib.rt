//! How far two boxes are apart, worked out plainly: what the measures of `geometry` are compared with.

#![tactic(auto)]

pub mod distance;
