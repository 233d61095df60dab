//! Browses drawn books and compares every answer with a plain scan. The books are the same in every run.

#![tactic(auto)]

mod agreed;
mod compare;
mod extent;
mod filed;
mod rounds;
mod scan;
mod shape;
mod source;
mod tree;

use crate::rounds::Results;
use crate::shape::{MOST_NODES, MOST_PLACES, Shape};
use crate::source::Source;
use chance::chance::Chance;
use std::alloc::Global;

/// How many shapes are drawn, besides the two largest.
const ROUNDS: u16 = 60;

fn all_rounds(heap: Global) -> anyhow::Result<Results> {
    let mut results = Results::default();
    let mut source = Source {
        heap,
        chance: Chance::new(19_370_511),
        shape: MOST_NODES,
    };
    source.round(&mut results)?;
    source.shape = MOST_PLACES;
    source.round(&mut results)?;
    for _ in 0..ROUNDS {
        source.shape = Shape::draw(&mut source.chance);
        source.round(&mut results)?;
    }
    Ok(results)
}

fn main(rt: HostRuntime) -> anyhow::Result<()> {
    let results = all_rounds(rt.alloc())?;
    println!(rt; "loaded: {}", results.loaded)?;
    println!(rt; "shifted: {}", results.shifted)?;
    println!(rt; "joined: {}", results.joined)?;
    println!(rt; "joined and shifted: {}", results.joined_shifted)?;
    Ok(())
}
