//! Whether a place is sound by itself.

ghost use Rattle.std.specs.Prelude.{◌≡◌};
ghost use Rattle.refusal.specs.Told.{answered, tree_told};
ghost use Rattle.book_check.specs.Sound.{sticks_out, leaves_box, sound_target};

use crate::target::{Target, in_book, one_lower, target_at};
use book::book::Book;
use geometry::bounds::Bounds;
use refusal::hands::TreeFault;

/// Whether an entry of the node lies outside the box. Spoilt places are passed over.
fn sticks_out<B: Book>(book: &B, bounds: &Bounds, node: u16) -> bool
    ensures { result ≡ sticks_out (B.Book.model book.now) bounds.now node }
{
    (0..book.place_count(node)).any(|index| {
        book.place(node, index)
            .is_some_and(|entry| !bounds.contains(&entry.bounds))
    })
}

fn leaves_box<B: Book>(book: &B, bounds: &Bounds, target: Target) -> bool
    ensures { result ≡ leaves_box (B.Book.model book.now) bounds.now target }
{
    match target {
        Target::Pick(_) => false,
        Target::Child(child) => sticks_out(book, bounds, child),
    }
}

/// What the place names, unless something is wrong with it whatever other places name.
#[tactic(auto, unfolding(crate::specs::Sound::sound_target))]
pub(crate) fn sound_target<B: Book>(book: &B, node: u16, place: u8) -> Result<Target, TreeFault>
    ensures { answered tree_told result ≡ sound_target (B.Book.model book.now) node place }
{
    let entry = book
        .place(node, place)
        .ok_or(TreeFault::Spoilt { node, place })?;
    let level = book.level(node);
    let target = target_at(level, entry.target);
    if !in_book(book, target) {
        return Err(TreeFault::Target { node, place });
    }
    if !one_lower(book, level, target) {
        return Err(TreeFault::ChildLevel { node, place });
    }
    if leaves_box(book, &entry.bounds, target) {
        return Err(TreeFault::Outside { node, place });
    }
    Ok(target)
}
