//! The sample book, asked as a program in C would.

use crate::crossing::{QueryPoint, ToldRow};
use crate::exports::{book_picks, nearest_chessboard, nearest_euclidean, nearest_manhattan};

// The file of book W.
const BOOK: [u8; 178] = [
    3, 0, 0, 2, 0, 0, 0, 2, 2, 0, 1, 2, 4, 0, 6, 0, 0, 0, 0, 0, 0, 0, 0, 0, 221, 255, 255, 255, 0,
    0, 0, 0, 0, 0, 0, 0, 221, 255, 255, 255, 0, 0, 0, 0, 0, 0, 0, 0, 0, 0, 96, 240, 255, 255, 0, 0,
    0, 0, 0, 0, 0, 0, 96, 240, 255, 255, 1, 0, 44, 1, 0, 0, 144, 1, 0, 0, 221, 255, 255, 255, 44,
    1, 0, 0, 144, 1, 0, 0, 221, 255, 255, 255, 2, 0, 44, 1, 0, 0, 144, 1, 0, 0, 204, 247, 255, 255,
    44, 1, 0, 0, 144, 1, 0, 0, 48, 248, 255, 255, 3, 0, 0, 0, 0, 0, 0, 0, 0, 0, 96, 240, 255, 255,
    0, 0, 0, 0, 0, 0, 0, 0, 221, 255, 255, 255, 0, 0, 44, 1, 0, 0, 144, 1, 0, 0, 204, 247, 255,
    255, 44, 1, 0, 0, 144, 1, 0, 0, 221, 255, 255, 255, 1, 0, 4, 0, 1, 4, 1, 3,
];

const BLANK: ToldRow = ToldRow {
    distance: 0,
    top: 0,
    pick: 9,
};

const GROUND: [QueryPoint; 1] = [QueryPoint {
    easting: 0,
    northing: 0,
    level: 0,
}];

#[test]
fn picks_are_counted(rt: HostRuntime) {
    let all = book_picks(rt.alloc(), &BOOK);
    assert_eq!(rt; all.refusal, 0);
    assert_eq!(rt; all.count, 4);
    let cut = book_picks(rt.alloc(), &BOOK[..177]);
    assert_eq!(rt; cut.refusal, 1);
    assert_eq!(rt; cut.count, 0);
}

#[test]
fn nearest_by_each_measure(rt: HostRuntime) {
    let mut rows = [BLANK; 5];
    let told = nearest_euclidean(rt.alloc(), &BOOK, &GROUND, 5, &mut rows);
    assert_eq!(rt; told.refusal, 0);
    assert_eq!(rt; told.count, 4);
    assert_eq!(rt; rows[0].distance, 1_225);
    assert_eq!(rt; rows[1].pick, 2);
    assert_eq!(rt; rows[1].distance, 251_225);
    assert_eq!(rt; rows[2].distance, 4_250_000);
    assert_eq!(rt; rows[3].distance, 16_000_000);
    assert_eq!(rt; rows[3].top, -4_000);
    assert_eq!(rt; rows[4].pick, 9);
    let told = nearest_manhattan(rt.alloc(), &BOOK, &GROUND, 2, &mut rows);
    assert_eq!(rt; told.count, 2);
    assert_eq!(rt; rows[1].distance, 735);
    let told = nearest_chessboard(rt.alloc(), &BOOK, &GROUND, 2, &mut rows);
    assert_eq!(rt; told.count, 2);
    assert_eq!(rt; rows[1].distance, 400);
}
