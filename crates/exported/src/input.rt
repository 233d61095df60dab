//! The book in the bytes, and the boxes of the queries.

ghost use Rattle.std.specs.Prelude.{◌≡◌, Ok, MatchResult};
ghost use Rattle.book_check.specs.Checked.{checked};
ghost use Rattle.loaded.specs.Loaded.{loaded_model};
ghost use Rattle.exported.specs.Input.{picks_in, book_in, boxes_of, asked_for};
ghost use Rattle.exported.specs.Outcome.{FaultOf};

use crate::crossing::QueryPoint;
use crate::fault::Fault;
use book_check::scan::check;
use geometry::bounds::{Bounds, Point};
use loaded::loaded::Loaded;
use std::alloc::Global;

/// A book that the check accepts, and how many picks it names.
#[derive(Drop)]
pub(crate) struct Held {
    pub(crate) book: Loaded,
    pub(crate) picks: u16,
    ghost accepted: { checked (loaded_model book) ≡ Ok picks },
}

/// The book in the file.
pub(crate) fn held_book(heap: Global, file: &[u8]) -> Result<Held, Fault>
    ensures picks { MatchResult result (λ h. picks_in file.now ≡ Ok h.picks) (FaultOf (picks_in file.now)) }
    ensures book { MatchResult result (λ h. book_in file.now ≡ Ok (loaded_model h.book)) (FaultOf (book_in file.now)) }
{
    let mut book = Loaded::empty(heap)?;
    book.load(file)?;
    let picks = check(&book)?;
    Ok(Held { book, picks })
}

/// The boxes of these queries.
pub(crate) fn query_boxes(heap: Global, points: &[QueryPoint]) -> Result<Vec<Bounds>, Fault>
    ensures { MatchResult result (λ v. boxes_of points.now ≡ Ok v.items) (FaultOf (boxes_of points.now)) }
{
    let mut boxes = Vec::with_capacity(heap, points.len())?;
    // `collect` may want memory at any item; here it is all taken first.
    for point in points {
        boxes.push_reserved(Bounds::at(Point::from(*point))?);
    }
    Ok(boxes)
}

/// What a call asks for.
#[derive(Drop)]
pub(crate) struct Asked {
    pub(crate) held: Held,
    pub(crate) queries: Vec<Bounds>,
}

/// The book in the file and the boxes of these queries.
pub(crate) fn asked_for(heap: Global, file: &[u8], points: &[QueryPoint]) -> Result<Asked, Fault>
    ensures { MatchResult result (λ a. asked_for file.now points.now ≡ Ok (loaded_model a.held.book, a.queries.items)) (FaultOf (asked_for file.now points.now)) }
{
    let held = held_book(heap, file)?;
    let queries = query_boxes(heap, points)?;
    Ok(Asked { held, queries })
}
