//! Any book into the caller's bytes, in the file form.

ghost use Rattle.std.specs.Prelude.{◌≡◌, length, None};
ghost use Rattle.book.specs.Spoilt.{first_spoilt};
ghost use Rattle.book.specs.Totals.{total_places};
ghost use Rattle.file.specs.Encode.{encode};
ghost use Rattle.file.specs.WriteOut.{write_out_answer, write_out_leaves};
ghost use Rattle.refusal.specs.Told.{answered, told};

use crate::entries::put_entries;
use crate::nodes::put_nodes;
use crate::pen::Pen;
use crate::picks::put_picks;
use book::book::Book;
use book::spoilt::first_spoilt;
use book::totals::total_places;
use refusal::hands::{SliceFault, TreeFault};
use refusal::refusal::Refusal;

/// The most places of a book that can be written out.
const MOST_PLACES: usize = 2048;

/// The length of the file of a book with so many entries and no spoilt place.
#[tactic(auto, using(crate::proofs::Lengths::length_encode))]
fn file_length<B: Book>(book: &B, entries: u16) -> usize
    requires counted { entries ≡ total_places (B.Book.model book.now) }
    requires unspoilt { None ≡ first_spoilt (B.Book.model book.now) }
    ensures { result ≡ length (encode (B.Book.model book.now)) }
{
    let nodes = usize::from(book.node_count());
    let picks = usize::from(book.pick_limit());
    (2 + 4 * nodes) + (2 + 26 * usize::from(entries)) + (2 + picks)
}

/// Puts the book into `out` in the file form, and answers the length. Nothing is written before all tests are passed.
pub fn write_out<B: Book>(book: &B, out: &mut [u8]) -> Result<usize, Refusal>
    ensures answer { answered told result ≡ write_out_answer (B.Book.model book.now) (length out.old) }
    ensures bytes { out.new ≡ write_out_leaves (B.Book.model book.now) out.old }
{
    let places = total_places(book);
    if places > MOST_PLACES {
        return Err(Refusal::Tree(TreeFault::TooManyPlaces));
    }
    if let Some((node, place)) = first_spoilt(book) {
        return Err(Refusal::Tree(TreeFault::Spoilt { node, place }));
    }
    let entries = places as u16;
    if out.len() < file_length(book, entries) {
        return Err(Refusal::Slice(SliceFault::TooShort));
    }
    let mut pen = Pen::new(out);
    put_nodes(book, &mut pen);
    put_entries(book, entries, &mut pen);
    put_picks(book, &mut pen);
    Ok(pen.written())
}
