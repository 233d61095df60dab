//! Whether a node can be opened, and what its entries name. Each place is asked for once.

ghost use Rattle.std.specs.Prelude.{◌≡◌};
ghost use Rattle.book.specs.Model.{level_of, places_of};
ghost use Rattle.browse.specs.Tree.{class_at};
ghost use Rattle.browse.specs.Broken.{right_target};
ghost use Rattle.browse.specs.Desk.{thing_of, one_of, kids_of, standing};
ghost use Rattle.browse.specs.Opening.{sound_kid, sound_kids, kids_to_open};

use crate::desk::Desk;
use crate::kids::Kids;
use crate::view::View;
use crate::waiting::{Class, Waiting};
use book::book::Book;
use book::place::Entry;
use book_check::target::{in_book, one_lower, target_at};
use geometry::measure::Measure;

/// So many can wait.
const MOST_WAITING: usize = 2048;

fn class_at(level: u8) -> Class
    ensures { result ≡ class_at level }
{
    if level == 0 { Class::Pick } else { Class::Node }
}

/// Whether an entry of a node of this level may name this target.
fn right_target<B: Book>(book: &B, level: u8, target: u16) -> bool
    ensures { result ≡ right_target (B.Book.model book.now) level target }
{
    let target = target_at(level, target);
    in_book(book, target) && one_lower(book, level, target)
}

impl<B: Book, M: Measure> View<B, M> {
    /// What the place names, unless it is spoilt, nearer than its node, or names no right target.
    fn sound_kid(&self, level: u8, nearest: u64, place: Option<Entry>) -> Option<Waiting>
        ensures { one_of result ≡ sound_kid (B.Book.model self.now.book) (M.Measure.distance self.now.measure self.now.query) level nearest place }
    {
        let entry = place?;
        let distance = self.measure.distance(&self.query, &entry.bounds);
        if distance < nearest || !right_target(&self.book, level, entry.target) {
            return None;
        }
        Some(Waiting {
            distance,
            class: class_at(level),
            number: entry.target,
            arrival: 0,
            top: entry.bounds.level.high,
        })
    }

    /// What the node's entries name, if all its places are sound.
    fn sound_kids(&self, node: u16, nearest: u64) -> Option<Kids>
        ensures { kids_of result ≡ sound_kids (B.Book.model self.now.book) (M.Measure.distance self.now.measure self.now.query) (level_of (B.Book.model self.now.book) node) nearest (places_of (B.Book.model self.now.book) node) }
    {
        let level = self.book.level(node);
        let mut kids = Kids::none();
        for index in 0..self.book.place_count(node) {
            let place = self.book.place(node, index);
            let kid = self.sound_kid(level, nearest, place)?;
            kids.add(kid);
        }
        Some(kids)
    }

    /// The kids of the node that waits first, if it can be opened.
    #[tactic(auto, using(crate::specs::Waitings::length_waiting))]
    pub(crate) fn kids_to_open(&self, desk: &Desk, first: Waiting) -> Option<Kids>
        ensures { kids_of result ≡ kids_to_open (B.Book.model self.now.book) (M.Measure.distance self.now.measure self.now.query) (standing desk.now) (thing_of first) }
    {
        if desk.opened() >= self.book.node_count() {
            return None;
        }
        // The node itself still waits.
        if desk.waiting() + self.book.place_count(first.number) as usize > MOST_WAITING + 1 {
            return None;
        }
        self.sound_kids(first.number, first.distance)
    }
}
