//! The rows of each query, told by a browse.

ghost use Rattle.std.specs.Prelude.{◌≡◌, length, take};
ghost use Rattle.book_check.specs.Accepted.{Accepted};
ghost use Rattle.loaded.specs.Loaded.{loaded_model};
ghost use Rattle.search.specs.Answer.{row_in};
ghost use Rattle.browse.specs.Browse.{opening, next_reply};
ghost use Rattle.browse.specs.Desk.{standing};
ghost use Rattle.browse.specs.Law.{ranking, answer_in};
ghost use Rattle.exported.specs.Rows.{laid, first_rows};

use crate::crossing::ToldRow;
use crate::input::Held;
use browse::answer::{Found, Row};
use browse::browse::Browse;
use geometry::bounds::Bounds;
use geometry::measure::Measure;
use loaded::loaded::Loaded;
use refusal::hands::TreeFault;

/// The row that is told, if one is.
fn row_found(found: Result<Found, TreeFault>) -> Option<Row>
    ensures { result ≡ row_in (answer_in (next_reply found)) }
{
    found.ok()?.row
}

/// Tells as many rows as the slice has places, or all there are; how many.
fn tell<M: Measure>(browse: &mut Browse<Loaded, M>, rows: &mut [ToldRow]) -> usize
    requires accepted { Accepted (loaded_model browse.old.view.book) }
    requires opening { standing browse.old.desk ≡ opening (loaded_model browse.old.view.book) }
    ensures book { browse.new.view.book ≡ browse.old.view.book }
    ensures count { result ≡ length (take (length rows.old) (ranking (loaded_model browse.old.view.book) (M.Measure.distance browse.old.view.measure browse.old.view.query))) }
    ensures rows { rows.new ≡ laid (take (length rows.old) (ranking (loaded_model browse.old.view.book) (M.Measure.distance browse.old.view.measure browse.old.view.query))) rows.old }
{
    for (told, place) in rows.iter_mut().enumerate() {
        let Some(row) = row_found(browse.next(u64::MAX)) else {
            return told;
        };
        *place = ToldRow::from(row);
    }
    rows.len()
}

/// Opens a browse and tells as many rows as the slice has places, or all there are. The book comes back.
fn first_rows<M: Measure + Copy>(
    held: Held,
    measure: M,
    query: Bounds,
    rows: &mut [ToldRow],
) -> (Held, usize)
    ensures book { result.0.book ≡ held.book }
    ensures count { result.1 ≡ length (take (length rows.old) (ranking (loaded_model held.book) (M.Measure.distance measure query))) }
    ensures rows { rows.new ≡ laid (take (length rows.old) (ranking (loaded_model held.book) (M.Measure.distance measure query))) rows.old }
{
    let Held { book, picks } = held;
    let mut browse = Browse::open(book, measure, query);
    let told = tell(&mut browse, rows);
    let (book, _) = browse.close();
    (Held { book, picks }, told)
}

/// The first rows of each query, one after another, as many as the slice has places for; how many.
pub(crate) fn tell_all<M: Measure + Copy>(
    mut held: Held,
    measure: M,
    queries: &[Bounds],
    each: usize,
    rows: &mut [ToldRow],
) -> usize
    ensures count { result ≡ length (take (length rows.old) (first_rows (M.Measure.distance measure) (loaded_model held.book) each queries.now)) }
    ensures rows { rows.new ≡ laid (take (length rows.old) (first_rows (M.Measure.distance measure) (loaded_model held.book) each queries.now)) rows.old }
{
    let mut told = 0;
    for query in queries {
        let end = told + each.min(rows.len() - told);
        let (same, count) = first_rows(held, measure, *query, &mut rows[told..end]);
        held = same;
        told += count;
    }
    told
}
