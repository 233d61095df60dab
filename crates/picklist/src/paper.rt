//! Lines of a book on paper.

ghost use Rattle.std.specs.Prelude.{◌≡◌, Some};
ghost use Rattle.book.specs.Model.{node_count, pick_limit};
ghost use Rattle.picklist.specs.Paper.{book_line, pick_line};

use book::book::Book;
use book::kind::Kind;
use book::place::Entry;
use level::level::show::Hundredths;
use std::fmt;

/// A book, printed by how large it is.
#[derive(Clone, Copy)]
pub struct Heading<'a, B>(pub &'a B);

impl<B: Book> fmt::Display for Heading<'_, B> {
    ghost output = { λ heading. Some (book_line (node_count (B.Book.model heading.0.now)) (pick_limit (B.Book.model heading.0.now))) };

    fn fmt<W: fmt::Write>(&self, f: &mut fmt::Formatter<W>) -> fmt::Result {
        let nodes = self.0.node_count();
        let picks = self.0.pick_limit();
        write!(f, "book of {nodes} nodes and {picks} picks")
    }
}

/// A pick of a leaf, and its kind where the book has it.
#[derive(Clone, Copy)]
pub struct Pick {
    pub entry: Entry,
    pub kind: Option<Kind>,
}

impl fmt::Display for Pick {
    ghost output = { λ pick. Some (pick_line pick.entry pick.kind) };

    fn fmt<W: fmt::Write>(&self, f: &mut fmt::Formatter<W>) -> fmt::Result {
        let Entry { bounds, target } = self.entry;
        let top = Hundredths(bounds.level.high);
        match self.kind {
            Some(kind) => write!(f, "pick {target} {kind} top {top}"),
            None => write!(f, "pick {target} no kind top {top}"),
        }
    }
}
