//! Two books in one.

ghost use Rattle.std.specs.Prelude.{◌≡◌};
ghost use Rattle.book.specs.Model.{Model};
ghost use Rattle.refusal.specs.Told.{answered, join_told};
ghost use Rattle.makes.specs.Join.{sizes_of, root_boxes, root_box, joinable, joined};
ghost use Rattle.makes.specs.Seam.{along};
ghost use Rattle.makes.specs.Smallest.{IsSmallest};
ghost use Rattle.makes.specs.Seams.{shape_along};

use crate::seam::{Part, Seam, Sizes};
use crate::smallest::around_both;
use book::book::Book;
use book::kind::Kind;
use book::place::Entry;
use geometry::bounds::Bounds;
use refusal::hands::JoinFault;

/// The left nodes, the right nodes, and a new root above the two old ones. What it measured of the two books when it was
/// made it does not ask again; without a seam they do not fit, and it is the empty book.
#[derive(Drop)]
pub struct Join<L, R> {
    left: L,
    right: R,
    seam: Option<Seam>,
}

fn sizes<B: Book>(book: &B) -> Sizes
    ensures { result ≡ sizes_of (B.Book.model book.now) }
{
    Sizes {
        nodes: book.node_count(),
        picks: book.pick_limit(),
    }
}

/// Tells whether two books can be joined.
pub fn fits<L: Book, R: Book>(left: &L, right: &R) -> Result<(), JoinFault>
    ensures { answered join_told result ≡ joinable (L.Book.model left.now) (R.Book.model right.now) }
{
    let first = left.node_count();
    let second = right.node_count();
    if first + second + 1 > 512 {
        return Err(JoinFault::TooManyNodes);
    }
    if left.pick_limit() + right.pick_limit() > 2048 {
        return Err(JoinFault::TooManyPicks);
    }
    let level = left.level(first - 1);
    if level != right.level(second - 1) || level == 7 {
        return Err(JoinFault::RootLevels);
    }
    if left.place_count(first - 1) == 0 || right.place_count(second - 1) == 0 {
        return Err(JoinFault::EmptyRoot);
    }
    Ok(())
}

// The box around the entries of the root that name something in the book.
fn root_box<B: Book>(book: &B, sizes: &Sizes) -> Option<Bounds>
    requires { sizes.now ≡ sizes_of (B.Book.model book.now) }
    ensures { result ≡ root_box (B.Book.model book.now) }
{
    let root = sizes.nodes - 1;
    let level = book.level(root);
    // A closure for `fold` would have to state again what `renumbered` asks.
    let mut bounds = None;
    for index in 0..book.place_count(root) {
        let place = sizes.renumbered(&Sizes::NOTHING, level, book.place(root, index));
        bounds = around_both(bounds, place.map(|entry| entry.bounds));
    }
    bounds
}

// What a join keeps of two books, where they fit.
fn measured<L: Book, R: Book>(left: &L, right: &R) -> Option<Seam>
    ensures { along result (L.Book.model left.now) (R.Book.model right.now) ≡ joined (L.Book.model left.now) (R.Book.model right.now) }
{
    fits(left, right).ok()?;
    let first = sizes(left);
    let second = sizes(right);
    Some(Seam {
        left: first,
        right: second,
        level: left.level(first.nodes - 1) + 1,
        left_box: root_box(left, &first),
        right_box: root_box(right, &second),
    })
}

impl<L: Book, R: Book> Join<L, R> {
    /// The two books, joined.
    pub fn new(left: L, right: R) -> Join<L, R>
        ensures parts { (result.left ≡ left) × (result.right ≡ right) }
        ensures value { along result.seam (L.Book.model result.left) (R.Book.model result.right) ≡ joined (L.Book.model left) (R.Book.model right) }
        ensures smallest { (m : Model) → IsSmallest (root_boxes m) (root_box m) }
    {
        let seam = measured(&left, &right);
        Join { left, right, seam }
    }

    /// The two books as they were.
    pub fn into_parts(self) -> (L, R)
        ensures { (result.0 ≡ self.left) × (result.1 ≡ self.right) }
    {
        let Join {
            right,
            left,
            seam: _,
        } = self;
        (left, right)
    }
}

impl<L: Book, R: Book> Book for Join<L, R> {
    ghost model = { λ s. along s.seam (L.Book.model s.left) (R.Book.model s.right) };

    ghost shape = { λ b.
        shape_along b.seam (L.Book.model b.left) (R.Book.model b.right)
        (L.Book.shape b.left) (R.Book.shape b.right) };

    fn node_count(&self) -> u16 {
        self.seam
            .map_or(1, |seam| seam.left.nodes + seam.right.nodes + 1)
    }

    fn pick_limit(&self) -> u16 {
        self.seam
            .map_or(0, |seam| seam.left.picks + seam.right.picks)
    }

    // The two books differ in type: a function for this and `place_count` would take three closures, and be no plainer.
    fn level(&self, node: u16) -> u8 {
        self.seam.map_or(0, |seam| match seam.part(node) {
            Part::Left(k) => self.left.level(k),
            Part::Right(k) => self.right.level(k),
            Part::Root => seam.level,
            Part::Outside => 0,
        })
    }

    fn place_count(&self, node: u16) -> u8 {
        self.seam.map_or(0, |seam| match seam.part(node) {
            Part::Left(k) => self.left.place_count(k),
            Part::Right(k) => self.right.place_count(k),
            Part::Root => 2,
            Part::Outside => 0,
        })
    }

    fn place(&self, node: u16, index: u8) -> Option<Entry> {
        let seam = self.seam?;
        match seam.part(node) {
            Part::Left(k) => seam.left.renumbered(
                &Sizes::NOTHING,
                self.left.level(k),
                self.left.place(k, index),
            ),
            Part::Right(k) => seam.right.renumbered(
                &seam.left,
                self.right.level(k),
                self.right.place(k, index),
            ),
            Part::Root => seam.root_place(index),
            Part::Outside => None,
        }
    }

    fn kind(&self, pick: u16) -> Option<Kind> {
        let seam = self.seam?;
        let kind = match pick.checked_sub(seam.left.picks) {
            None => self.left.kind(pick),
            Some(rest) if rest < seam.right.picks => self.right.kind(rest),
            Some(_) => return None,
        };
        // That the book has this pick is known where the seam was measured, and not here: the marker is never told.
        Some(kind.unwrap_or(Kind::Marker))
    }
}
