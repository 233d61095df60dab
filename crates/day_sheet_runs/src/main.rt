//! Shortlists of generated sheets, held to a sort written plainly, and the sheets that are refused.

#![tactic(auto)]

ghost use Rattle.std.specs.Prelude.{◌≤◌};

mod drawn;
mod plain;

use crate::plain::{BLANK, Expected};
use chance::chance::Chance;
use day_sheet::record::Record;
use day_sheet::row::Row;
use day_sheet::shortlist::shortlist;
use geometry::bounds::{Bounds, Point};
use geometry::chessboard::Chessboard;
use geometry::choice::Choice;
use geometry::euclidean::Euclidean;
use geometry::manhattan::Manhattan;
use refusal::hands::{SliceFault, TypingFault};
use refusal::refusal::Refusal;
use std::io;

const RUNS: usize = 900;

// By turns.
const CHOICES: [Choice; 3] = [Choice::Euclidean, Choice::Manhattan, Choice::Chessboard];

// A shortlist by the type of the measure that is chosen.
fn list(
    sheet: &mut [Record],
    query: &Bounds,
    choice: Choice,
    k: usize,
    answer: &mut [Row],
) -> Result<usize, SliceFault> {
    match choice {
        Choice::Euclidean => shortlist(sheet, query, &Euclidean, k, answer),
        Choice::Manhattan => shortlist(sheet, query, &Manhattan, k, answer),
        Choice::Chessboard => shortlist(sheet, query, &Chessboard, k, answer),
    }
}

// Whether the shortlist of this sheet is the one that the plain sort gives; `before` is the sheet too.
fn agrees(
    chance: &mut Chance,
    choice: Choice,
    before: &[Record],
    sheet: &mut [Record],
) -> Result<bool, TypingFault> {
    let k = chance.place(32) + 1;
    let low = drawn::point(chance);
    let high = drawn::point_beyond(chance, low);
    let query = Bounds::new(low, high)?;
    let mut answer = [BLANK; 32];
    let told = list(sheet, &query, choice, k, &mut answer);
    let expected = Expected::new(before, &query, choice, k)?;
    Ok(
        told == Ok(expected.count())
            && expected.has_rows(&answer)
            && expected.has_marks(before, sheet),
    )
}

fn agrees_on_another(chance: &mut Chance, choice: Choice) -> Result<bool, TypingFault> {
    let mut sheet = [Record {
        kind: 0,
        point: Point::ORIGIN,
        marked: false,
    }; 256];
    drawn::fill(chance, &mut sheet);
    let before = sheet;
    let size = chance.place(257);
    agrees(chance, choice, &before[0..size], &mut sheet[0..size])
}

fn say(rt: &impl Print, what: &str, told: Result<usize, Refusal>) -> io::Result<()> {
    match told {
        Ok(count) => println!(rt; "{what}: {count} rows"),
        Err(refusal) => {
            // Not by the refusal's own Display, which calls a place an entry, as the console does.
            let number = refusal.number();
            match refusal.place() {
                Some(place) => println!(rt; "{what}: refused {number} place {place}"),
                None => println!(rt; "{what}: refused {number}"),
            }
        }
    }
}

// A shortlist of records at the origin, but for the level of the third.
fn attempt(k: usize, records: usize, rows: usize, level: i32) -> Result<usize, Refusal>
    requires { (records ≤ 257) × (rows ≤ 33) }
{
    let query = Bounds::at(Point::ORIGIN)?;
    let mut sheet = [Record {
        kind: 2,
        point: Point::ORIGIN,
        marked: false,
    }; 257];
    sheet[2].point.level = level;
    let mut answer = [BLANK; 33];
    let told = list(
        &mut sheet[0..records],
        &query,
        Choice::Manhattan,
        k,
        &mut answer[0..rows],
    )?;
    Ok(told)
}

// Sheets and slices that are refused, and some that are just lawful.
fn limits(rt: &impl Print) -> io::Result<()> {
    say(rt, "no row wanted", attempt(0, 3, 33, 0))?;
    say(rt, "33 rows wanted", attempt(33, 3, 33, 0))?;
    say(rt, "32 rows wanted", attempt(32, 3, 32, 0))?;
    say(rt, "31 rows for 32", attempt(32, 3, 31, 0))?;
    say(rt, "257 records", attempt(1, 257, 33, 0))?;
    say(rt, "256 records", attempt(32, 256, 33, 0))?;
    say(rt, "no record", attempt(5, 0, 33, 0))?;
    say(rt, "a level out of range", attempt(1, 3, 33, 10_000_001))?;
    say(rt, "that, and no row wanted", attempt(0, 3, 33, 10_000_001))
}

fn main(rt: HostRuntime) -> io::Result<()> {
    let mut chance = Chance::new(2025);
    let mut same = 0u32;
    for choice in CHOICES.iter().cycle().take(RUNS) {
        if agrees_on_another(&mut chance, *choice) == Ok(true) {
            same = same.saturating_add(1);
        }
    }
    println!(rt; "{same} of {RUNS} shortlists are as a plain sort has them")?;
    limits(&rt)
}
