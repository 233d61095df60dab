//! The section of the entries.

ghost use Rattle.std.specs.Prelude.{◌≡◌};
ghost use Rattle.book.specs.Model.{places_of};
ghost use Rattle.book.specs.Totals.{total_places};
ghost use Rattle.file.specs.Encode.{entry_record, place_records, entry_records, entry_section};
ghost use Rattle.file.specs.Pen.{HasRoom, wrote};

use crate::pen::Pen;
use book::book::Book;
use book::place::Entry;

/// Puts the record of an entry: the low corner of its box, the high corner, the target.
#[tactic(auto, using(crate::proofs::Pens::wrote_three))]
fn put_entry(entry: Entry, pen: &mut Pen)
    requires { HasRoom pen.old (entry_record entry) }
    ensures { pen.new ≡ wrote pen.old (entry_record entry) }
{
    pen.put_point(entry.bounds.low());
    pen.put_point(entry.bounds.high());
    pen.put_u16(entry.target);
}

/// Puts the records of the entries of one node. A spoilt place has none.
fn put_node_entries<B: Book>(book: &B, node: u16, pen: &mut Pen)
    requires { HasRoom pen.old (place_records (places_of (B.Book.model book.now) node)) }
    ensures { pen.new ≡ wrote pen.old (place_records (places_of (B.Book.model book.now) node)) }
{
    for index in 0..book.place_count(node) {
        if let Some(entry) = book.place(node, index) {
            put_entry(entry, pen);
        }
    }
}

fn put_entry_records<B: Book>(book: &B, pen: &mut Pen)
    requires { HasRoom pen.old (entry_records (B.Book.model book.now).nodes) }
    ensures { pen.new ≡ wrote pen.old (entry_records (B.Book.model book.now).nodes) }
{
    for node in 0..book.node_count() {
        put_node_entries(book, node, pen);
    }
}

/// Puts the section of the entries, of which there are `count`.
#[tactic(auto, using(crate::proofs::Pens::wrote_both))]
pub(crate) fn put_entries<B: Book>(book: &B, count: u16, pen: &mut Pen)
    requires counted { count ≡ total_places (B.Book.model book.now) }
    requires room { HasRoom pen.old (entry_section (B.Book.model book.now)) }
    ensures { pen.new ≡ wrote pen.old (entry_section (B.Book.model book.now)) }
{
    pen.put_u16(count);
    put_entry_records(book, pen);
}
