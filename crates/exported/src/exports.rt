//! The functions that are exported.

ghost use Rattle.std.specs.Prelude.{length};
ghost use Rattle.geometry.specs.Distance.{euclidean, manhattan, chessboard};
ghost use Rattle.exported.specs.Input.{picks_in};
ghost use Rattle.exported.specs.Outcome.{OrNoMemory, result_outcome};
ghost use Rattle.exported.specs.Rows.{rows_for, Tells};

use crate::crossing::{Outcome, QueryPoint, ToldRow};
use crate::fault::Fault;
use crate::input::{Asked, asked_for, held_book};
use crate::telling::tell_all;
use geometry::chessboard::Chessboard;
use geometry::euclidean::Euclidean;
use geometry::manhattan::Manhattan;
use geometry::measure::Measure;
use std::alloc::Global;

/// How many picks the book in the file names.
#[unsafe(no_mangle)]
pub extern "C" fn book_picks(heap: Global, file: &[u8]) -> Outcome
    ensures { OrNoMemory result (picks_in file.now) }
{
    Outcome::from(held_book(heap, file).map(|held| held.picks as usize))
}

fn nearest<M: Measure + Copy>(
    heap: Global,
    file: &[u8],
    measure: M,
    points: &[QueryPoint],
    each: usize,
    rows: &mut [ToldRow],
) -> Result<usize, Fault>
    ensures { Tells (rows_for (M.Measure.distance measure) file.now points.now each (length rows.old)) (result_outcome result) rows.old rows.new }
{
    let Asked { held, queries } = asked_for(heap, file, points)?;
    Ok(tell_all(held, measure, &queries, each, rows))
}

// C has no type parameters: one function for each measure.

/// Of each query, one after another, the first so many rows of the ranking by the Euclidean measure, as many as there are
/// places for.
#[unsafe(no_mangle)]
pub extern "C" fn nearest_euclidean(
    heap: Global,
    file: &[u8],
    points: &[QueryPoint],
    each: usize,
    rows: &mut [ToldRow],
) -> Outcome
    ensures { Tells (rows_for euclidean file.now points.now each (length rows.old)) result rows.old rows.new }
{
    Outcome::from(nearest(heap, file, Euclidean, points, each, rows))
}

/// Of each query, one after another, the first so many rows of the ranking by the Manhattan measure, as many as there are
/// places for.
#[unsafe(no_mangle)]
pub extern "C" fn nearest_manhattan(
    heap: Global,
    file: &[u8],
    points: &[QueryPoint],
    each: usize,
    rows: &mut [ToldRow],
) -> Outcome
    ensures { Tells (rows_for manhattan file.now points.now each (length rows.old)) result rows.old rows.new }
{
    Outcome::from(nearest(heap, file, Manhattan, points, each, rows))
}

/// Of each query, one after another, the first so many rows of the ranking by the Chessboard measure, as many as there are
/// places for.
#[unsafe(no_mangle)]
pub extern "C" fn nearest_chessboard(
    heap: Global,
    file: &[u8],
    points: &[QueryPoint],
    each: usize,
    rows: &mut [ToldRow],
) -> Outcome
    ensures { Tells (rows_for chessboard file.now points.now each (length rows.old)) result rows.old rows.new }
{
    Outcome::from(nearest(heap, file, Chessboard, points, each, rows))
}
