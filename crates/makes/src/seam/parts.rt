//! What a joined book's nodes and places are made of.

ghost use Rattle.std.specs.Prelude.{◌≡◌, ◌+◌, ◌≤◌};
ghost use Rattle.makes.specs.Join.{count_at, renumbered as renumbered_place};
ghost use Rattle.makes.specs.Seam.{part_of, root_place};

use crate::seam::{Part, Seam, Sizes};
use book::place::Entry;

impl Sizes {
    /// The sizes of no book at all.
    pub const NOTHING: Sizes = Sizes { nodes: 0, picks: 0 };

    /// How many there are of what a node of this level names.
    pub(crate) fn at(&self, level: u8) -> u16
        ensures { result ≡ count_at self.now level }
    {
        if level == 0 { self.picks } else { self.nodes }
    }

    /// A place of a book of these sizes, numbered on from what stands before that book.
    pub(crate) fn renumbered(
        &self,
        before: &Sizes,
        level: u8,
        place: Option<Entry>,
    ) -> Option<Entry>
        requires { count_at before.now level + count_at self.now level ≤ 65536 }
        ensures { result ≡ renumbered_place self.now before.now level place }
    {
        let entry = place?;
        (entry.target < self.at(level)).then(|| Entry {
            target: before.at(level) + entry.target,
            ..entry
        })
    }
}

impl Seam {
    /// Where a node of the joined book comes from.
    pub(crate) fn part(&self, node: u16) -> Part
        ensures { result ≡ part_of self.now node }
    {
        match node.checked_sub(self.left.nodes) {
            None => Part::Left(node),
            Some(rest) if rest < self.right.nodes => Part::Right(rest),
            Some(rest) if rest == self.right.nodes => Part::Root,
            Some(_) => Part::Outside,
        }
    }

    /// A place of the new root.
    pub(crate) fn root_place(&self, index: u8) -> Option<Entry>
        ensures { result ≡ root_place self.now index }
    {
        let (target, bounds) = match index {
            0 => (self.left.nodes - 1, self.left_box?),
            1 => (self.left.nodes + self.right.nodes - 1, self.right_box?),
            _ => return None,
        };
        Some(Entry { bounds, target })
    }
}
