//! Reads points, one a line as three levels, and prints for each its level, and how far from ground it lies by each
//! measure.

#![tactic(auto)]

mod reading;

use crate::reading::read_line;
use refusal::refusal::Refusal;
use std::io;
use std::io::{BufRead, BufReader};

fn main(rt: HostRuntime) -> io::Result<()> {
    for line in BufReader::new(rt.alloc(), rt.stdin())?.split(rt.alloc(), b'\n') {
        match read_line(&line?) {
            Ok(reading) => rt.println(reading)?,
            Err(fault) => rt.println(Refusal::from(fault))?,
        }
    }
    Ok(())
}
