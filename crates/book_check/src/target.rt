//! What an entry names.

ghost use Rattle.std.specs.Prelude.{◌≡◌};
ghost use Rattle.book_check.specs.Targets.{target_at, in_book, one_lower, root_of};

use book::book::Book;

/// A pick in a leaf, a child above that.
#[derive(Clone, Copy, PartialEq, Eq, Debug)]
pub enum Target {
    Pick(u16),
    Child(u16),
}

/// What an entry with this number names in a node of this level.
pub fn target_at(level: u8, number: u16) -> Target
    ensures { result ≡ target_at level number }
{
    if level == 0 {
        Target::Pick(number)
    } else {
        Target::Child(number)
    }
}

pub(crate) fn root_of<B: Book>(book: &B) -> u16
    ensures { result ≡ root_of (B.Book.model book.now) }
{
    book.node_count() - 1
}

/// Whether the book has this pick, or this node below its root.
pub fn in_book<B: Book>(book: &B, target: Target) -> bool
    ensures { result ≡ in_book (B.Book.model book.now) target }
{
    match target {
        Target::Pick(pick) => pick < book.pick_limit(),
        Target::Child(node) => node < root_of(book),
    }
}

/// Whether the target is one level lower than a node of this level, which every pick of a leaf is.
pub fn one_lower<B: Book>(book: &B, level: u8, target: Target) -> bool
    ensures { result ≡ one_lower (B.Book.model book.now) level target }
{
    match target {
        Target::Pick(_) => true,
        Target::Child(child) => book.level(child) + 1 == level,
    }
}
