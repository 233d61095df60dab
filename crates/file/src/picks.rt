//! The section of the picks.

ghost use Rattle.std.specs.Prelude.{◌≡◌};
ghost use Rattle.file.specs.Encode.{pick_records, pick_section};
ghost use Rattle.file.specs.Pen.{HasRoom, wrote};

use crate::pen::Pen;
use book::book::Book;

fn put_pick_records<B: Book>(book: &B, pen: &mut Pen)
    requires { HasRoom pen.old (pick_records (B.Book.model book.now).kinds) }
    ensures { pen.new ≡ wrote pen.old (pick_records (B.Book.model book.now).kinds) }
{
    for pick in 0..book.pick_limit() {
        if let Some(kind) = book.kind(pick) {
            pen.put_bytes(&[u8::from(kind)]);
        }
    }
}

/// Puts the section of the picks.
#[tactic(auto, using(crate::proofs::Pens::wrote_both))]
pub(crate) fn put_picks<B: Book>(book: &B, pen: &mut Pen)
    requires { HasRoom pen.old (pick_section (B.Book.model book.now)) }
    ensures { pen.new ≡ wrote pen.old (pick_section (B.Book.model book.now)) }
{
    pen.put_u16(book.pick_limit());
    put_pick_records(book, pen);
}
