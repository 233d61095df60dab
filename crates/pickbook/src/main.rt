//! Loads and checks the file pick.book, then answers the commands on standard input.

#![tactic(auto)]

mod begin;
mod held;

use crate::begin::{Begun, begin, bytes_of, judge};
use crate::held::Held;
use loaded::loaded::Loaded;
use std::fs;
use std::io::{BufRead, BufReader};

fn main(rt: HostRuntime) -> anyhow::Result<()> {
    let bytes = bytes_of(rt.alloc(), fs::read(&rt, "pick.book"));
    let mut book = Loaded::empty(rt.alloc())?;
    let Begun { mut console, said } = begin(judge(&mut book, &bytes));
    rt.println(said)?;
    let mut held = Held::Book(book);
    for line in BufReader::new(rt.alloc(), rt.stdin())?.split(rt.alloc(), b'\n') {
        let shown = held.answer(&mut console, &line?);
        rt.println(shown.said)?;
        held = shown.held;
    }
    Ok(())
}
