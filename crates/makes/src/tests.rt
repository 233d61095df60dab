//! A pile of makes, and the longest string, asked.

use crate::join::{Join, fits};
use crate::offset::Offset;
use crate::shift::Shift;
use crate::tally::Tally;
use book::book::Book;
use book::place::Entry;
use book::totals::total_places;
use geometry::bounds::Point;
use refusal::hands::TypingFault;
use std::test::Fail;

fn entry<B: Book>(book: &B, node: u16, index: u8) -> Result<Entry, Fail> {
    book.place(node, index).ok_or_else(|| Fail::new("spoilt"))
}

#[test]
fn pile(rt: HostRuntime) -> Result<(), Fail> {
    let top = Point::ORIGIN;
    let east = Offset::new(Point {
        easting: 100,
        ..Point::ORIGIN
    })?;
    let left = Shift::new(Tally::new(top, 17, 3000)?, east);
    let right = Tally::new(top, 20, 1000)?;
    fits(&left, &right)?;
    let pile = Shift::new(Join::new(left, right), east);
    assert_eq!(rt; pile.node_count(), 7);
    assert_eq!(rt; pile.pick_limit(), 37);
    assert_eq!(rt; pile.level(6), 2);
    // The last collar of the right string is pick 17 + 19.
    let lowest = entry(&pile, 4, 3)?;
    assert_eq!(rt; lowest.target, 36);
    assert_eq!(rt; lowest.bounds.level.high, -19_000);
    // The root's first place: the left root, which was moved twice.
    let first = entry(&pile, 6, 0)?;
    assert_eq!(rt; first.target, 2);
    assert_eq!(rt; first.bounds.easting.low, 200);
    assert_eq!(rt; first.bounds.level.low, -48_000);
    // The right root names its first leaf behind the three left nodes.
    assert_eq!(rt; entry(&pile, 5, 0)?.target, 3);
    Ok(())
}

// The longest string makes 63 leaves, 4 nodes above them and the root.
#[test]
fn longest_string(rt: HostRuntime) -> Result<(), Fail> {
    let top = Point::ORIGIN;
    let string = Tally::new(top, 1000, 100)?;
    assert_eq!(rt; string.node_count(), 68);
    assert_eq!(rt; total_places(&string), 1067);
    match Tally::new(top, 1001, 100) {
        Err(TypingFault::Tally) => Ok(()),
        _ => Err(Fail::new("1,001 joints are not refused by 24")),
    }
}
