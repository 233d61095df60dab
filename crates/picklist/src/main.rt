//! Prints the book in the file pick.book on paper: a line for each pick of each leaf. Then writes the book out and says
//! how many bytes came back equal, and shows a tally, a join and a shift.

#![tactic(auto)]

mod paper;

use crate::paper::{Heading, Pick};
use anyhow::Context;
use book::book::Book;
use file::write_out::write_out;
use geometry::bounds::Point;
use loaded::loaded::Loaded;
use makes::join::Join;
use makes::offset::Offset;
use makes::shift::Shift;
use makes::tally::Tally;
use refusal::refusal::Refusal;
use std::fs;

/// No lawful file is longer.
const LONGEST: usize = 57_350;

fn print_leaf(rt: &HostRuntime, book: &Loaded, node: u16) -> anyhow::Result<()> {
    for index in 0..book.place_count(node) {
        match book.place(node, index) {
            Some(entry) => {
                let kind = book.kind(entry.target);
                rt.println(Pick { entry, kind })?;
            }
            None => rt.println("spoilt")?,
        }
    }
    Ok(())
}

// How many bytes are equal, place by place. Where zeros and ones are added, several are compared at a time.
fn equal_bytes(a: &[u8], b: &[u8]) -> usize {
    a.iter()
        .zip(b.iter())
        .map(|(x, y)| usize::from(x == y))
        .fold(0, usize::wrapping_add)
}

fn print_book(rt: &HostRuntime, book: &Loaded, bytes: &[u8]) -> anyhow::Result<()> {
    rt.println(Heading(book))?;
    for node in 0..book.node_count() {
        if book.level(node) == 0 {
            print_leaf(rt, book, node)?;
        }
    }
    let mut room = vec![in rt.alloc(); 0u8; LONGEST]?;
    match write_out(book, &mut room) {
        Ok(length) => {
            let equal = equal_bytes(&room, bytes);
            println!(rt; "{length} bytes written out, {equal} came back equal")?;
        }
        Err(refusal) => {
            let number = refusal.number();
            println!(rt; "not written out, refused {number}")?;
        }
    }
    Ok(())
}

fn print_size<B: Book>(rt: &HostRuntime, what: &str, book: &B) -> anyhow::Result<()> {
    println!(rt; "{what}: {}", Heading(book))?;
    Ok(())
}

// A casing string of 17 joints of 30 feet beside the loaded book, both in one, and that book a mile east.
fn print_makes(rt: &HostRuntime, book: Loaded) -> anyhow::Result<()> {
    let east = Point {
        easting: 528_000,
        ..Point::ORIGIN
    };
    let tally = Tally::new(Point::ORIGIN, 17, 3_000)
        .ok()
        .context("the sample tally is refused")?;
    let offset = Offset::new(east)
        .ok()
        .context("the sample offset is refused")?;
    print_size(rt, "tally", &tally)?;
    let join = Join::new(book, tally);
    print_size(rt, "join", &join)?;
    print_size(rt, "shift", &Shift::new(join, offset))
}

fn main(rt: HostRuntime) -> anyhow::Result<()> {
    let bytes = fs::read(&rt, "pick.book")?;
    let mut book = Loaded::empty(rt.alloc())?;
    match book.load(&bytes) {
        Ok(()) => {
            print_book(&rt, &book, &bytes)?;
            print_makes(&rt, book)?;
        }
        Err(fault) => {
            rt.println(Refusal::from(fault))?;
        }
    }
    Ok(())
}
