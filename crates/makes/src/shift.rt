//! A book with every box moved.

ghost use Rattle.std.specs.Prelude.{◌≡◌};
ghost use Rattle.makes.specs.Shift.{shifted};
ghost use Rattle.makes.specs.Shifts.{shape_shift};

use crate::offset::Offset;
use book::book::Book;
use book::kind::Kind;
use book::place::Entry;

/// A book over another. A box that would leave the range is lost: its place is spoilt.
#[derive(Drop)]
pub struct Shift<B> {
    book: B,
    offset: Offset,
}

impl<B> Shift<B> {
    /// The book, shifted.
    pub fn new(book: B, offset: Offset) -> Shift<B>
        ensures { (result.book ≡ book) × (result.offset ≡ offset) }
    {
        Shift { book, offset }
    }

    /// The book as it was, and the offset.
    pub fn into_parts(self) -> (B, Offset)
        ensures { (result.0 ≡ self.book) × (result.1 ≡ self.offset) }
    {
        let Shift { offset, book } = self;
        (book, offset)
    }
}

impl<B: Book> Book for Shift<B> {
    ghost model = { λ s. shifted s.offset.by (B.Book.model s.book) };

    ghost shape = { λ b. shape_shift b.offset.by (B.Book.model b.book) (B.Book.shape b.book) };

    fn node_count(&self) -> u16 {
        self.book.node_count()
    }

    fn pick_limit(&self) -> u16 {
        self.book.pick_limit()
    }

    fn level(&self, node: u16) -> u8 {
        self.book.level(node)
    }

    fn place_count(&self, node: u16) -> u8 {
        self.book.place_count(node)
    }

    fn place(&self, node: u16, index: u8) -> Option<Entry> {
        let entry = self.book.place(node, index)?;
        let bounds = entry.bounds.moved(self.offset.by)?;
        Some(Entry { bounds, ..entry })
    }

    fn kind(&self, pick: u16) -> Option<Kind> {
        self.book.kind(pick)
    }
}
