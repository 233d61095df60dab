//! The section of the nodes.

ghost use Rattle.std.specs.Prelude.{◌≡◌, ◌≤◌};
ghost use Rattle.book.specs.Model.{node_of};
ghost use Rattle.book.specs.Totals.{total_places};
ghost use Rattle.file.specs.Encode.{node_record, node_records, node_section};
ghost use Rattle.file.specs.Pen.{HasRoom, wrote};

use crate::pen::Pen;
use book::book::Book;

/// Puts the record of a node whose entries begin with the entry `first`.
fn put_node<B: Book>(book: &B, node: u16, first: u16, pen: &mut Pen)
    requires { HasRoom pen.old (node_record first (node_of (B.Book.model book.now) node)) }
    ensures { pen.new ≡ wrote pen.old (node_record first (node_of (B.Book.model book.now) node)) }
{
    pen.put_bytes(&[book.level(node), book.place_count(node)]);
    pen.put_u16(first);
}

fn put_node_records<B: Book>(book: &B, pen: &mut Pen)
    requires places { total_places (B.Book.model book.now) ≤ 2048 }
    requires room { HasRoom pen.old (node_records 0 (B.Book.model book.now).nodes) }
    ensures { pen.new ≡ wrote pen.old (node_records 0 (B.Book.model book.now).nodes) }
{
    let mut first: u16 = 0;
    for node in 0..book.node_count() {
        put_node(book, node, first, pen);
        first += u16::from(book.place_count(node));
    }
}

/// Puts the section of the nodes of a book whose places can be numbered.
#[tactic(auto, using(crate::proofs::Pens::wrote_both))]
pub(crate) fn put_nodes<B: Book>(book: &B, pen: &mut Pen)
    requires places { total_places (B.Book.model book.now) ≤ 2048 }
    requires room { HasRoom pen.old (node_section (B.Book.model book.now)) }
    ensures { pen.new ≡ wrote pen.old (node_section (B.Book.model book.now)) }
{
    pen.put_u16(book.node_count());
    put_node_records(book, pen);
}
