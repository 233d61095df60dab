//! What a book is: nodes of places, and the kinds of its picks, asked by questions.

#![tactic(auto)]

pub mod book;
pub mod kind;
pub mod place;
pub mod spoilt;
pub mod totals;
