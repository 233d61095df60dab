//! Browsing a book: the nearest pick first, then the next, up to a limit.

#![tactic(auto)]

pub mod answer;
pub mod browse;
mod desk;
mod follow;
mod kids;
pub mod law;
mod opening;
mod view;
mod waiting;
