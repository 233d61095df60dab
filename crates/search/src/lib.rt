//! The law of best-first search: what opening and telling the nearest first promises of every list of turns.
//!
//! No search runs here. One that answers as these definitions say has the law.

#![tactic(auto)]

ghost use Rattle.search.specs.Item.{SearchIsLawful, NextTellsTheNearest};

pub mod turn;

/// Of every tree of items that is sound from its root down, and of every list of turns: the rows told begin the ranking,
/// each answer and each count is right, and none is missed. And each `next` tells the nearest row that is left, if it is
/// within the limit.
pub fn search_is_lawful()
    ensures lawful { SearchIsLawful }
    ensures nearest { NextTellsTheNearest }
{}
