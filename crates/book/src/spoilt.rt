//! The first place of a book that holds no entry.

ghost use Rattle.std.specs.Prelude.{◌≡◌};
ghost use Rattle.book.specs.Spoilt.{first_spoilt};

use crate::book::Book;

/// The node and the place of the first spoilt place, lowest node first, then lowest place.
pub fn first_spoilt<B: Book>(book: &B) -> Option<(u16, u8)>
    ensures { result ≡ first_spoilt (B.Book.model book.now) }
{
    for node in 0..book.node_count() {
        for index in 0..book.place_count(node) {
            if book.place(node, index).is_none() {
                return Some((node, index));
            }
        }
    }
    None
}
