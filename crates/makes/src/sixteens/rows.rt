//! The rows of the tree.

ghost use Rattle.std.specs.Prelude.{◌≡◌, ◌+◌, ◌<◌, ◌≤◌, nat_lt};
ghost use Rattle.makes.specs.Covered.{row_of, row_above};
ghost use Rattle.makes.specs.Sixteens.{group_count};

use crate::sixteens::{Row, Sixteens};

/// How many groups of sixteen so many make.
pub(crate) fn group_count(count: u16) -> u16
    ensures { result ≡ group_count count }
{
    // Not `div_ceil`, which takes a remainder besides: every question of a tally asks this.
    ((u32::from(count) + 15) / 16) as u16
}

impl Row {
    // Whether a node that is in no row below this one is in this row.
    fn reaches(&self, node: u16) -> bool
        requires { self.now.first + self.now.places < 65536 }
        ensures { result ≡ nat_lt node (self.now.first + group_count self.now.places) }
    {
        node < self.first + group_count(self.places)
    }

    // The row above, which names this row's nodes, unless this row is one node.
    fn above(&self) -> Option<Row>
        requires low { self.now.level ≤ 2 }
        requires near { self.now.first + self.now.places < 65536 }
        requires narrow { self.now.below ≤ 256 }
        ensures { result ≡ row_above self.now }
    {
        let nodes = group_count(self.places);
        (self.places > 16).then(|| Row {
            level: self.level + 1,
            first: self.first + nodes,
            target: self.first,
            places: nodes,
            below: 16 * self.below,
        })
    }
}

impl Sixteens {
    /// The row of a node, where there is such a node.
    // No loop: there are three rows at most, as 1,000 picks make 63 leaves, 4 nodes above these and one at the top.
    #[tactic(auto, using(crate::proofs::Climbing::bounded, crate::proofs::Climbing::found, crate::proofs::Climbing::ended, crate::proofs::Climbing::climbs))]
    pub(crate) fn row_of(&self, node: u16) -> Option<Row>
        ensures { result ≡ row_of self.now.count node }
    {
        let leaves = Row {
            level: 0,
            first: 0,
            target: 0,
            places: self.count,
            below: 1,
        };
        if leaves.reaches(node) {
            return Some(leaves);
        }
        let middle = leaves.above()?;
        if middle.reaches(node) {
            return Some(middle);
        }
        let top = middle.above()?;
        (node == top.first).then_some(top)
    }
}
