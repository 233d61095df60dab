//! How many places a book has.

ghost use Rattle.std.specs.Prelude.{◌≡◌};
ghost use Rattle.book.specs.Totals.{total_places};

use crate::book::Book;

/// The places of all nodes together.
pub fn total_places<B: Book>(book: &B) -> usize
    ensures { result ≡ total_places (B.Book.model book.now) }
{
    let mut total: usize = 0;
    for node in 0..book.node_count() {
        total += book.place_count(node) as usize;
    }
    total
}
