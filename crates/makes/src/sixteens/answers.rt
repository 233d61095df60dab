//! What the tree answers, whatever is grouped: a box for each pick, missing where nothing can be had.

ghost use Rattle.std.specs.Prelude.{◌≡◌, ◌<◌, ◌≤◌, List, length, Option as Maybe};
ghost use Rattle.geometry.specs.declared.bounds.Bounds.{Bounds as BoxOf};
ghost use Rattle.makes.specs.Covered.{count_of, tree_count, covered_place, Within};
ghost use Rattle.makes.specs.Sixteens.{by_sixteens, nodes_for, level_at, places_at, place_at, TreeBySixteens};

use crate::sixteens::rows::group_count;
use crate::sixteens::{Covered, Sixteens};

impl Sixteens {
    /// The tree over so many picks, 1 to 1,000.
    pub fn over(count: u16) -> Option<Sixteens>
        ensures value { count_of result ≡ tree_count count }
        ensures tree { (boxes : List (Maybe BoxOf)) → 0 < length boxes → length boxes ≤ 1000 → TreeBySixteens boxes }
    {
        // Tried: `then(|| Sixteens { count })` does not close; with both bounds as its clause it does, and is no plainer.
        if (1..=1000).contains(&count) {
            Some(Sixteens { count })
        } else {
            None
        }
    }

    /// How many nodes the tree has.
    pub fn node_count(&self) -> u16
        ensures { result ≡ nodes_for self.now.count }
    {
        let leaves = group_count(self.count);
        match self.count {
            ..=16 => 1,
            17..=256 => leaves + 1,
            _ => leaves + group_count(leaves) + 1,
        }
    }

    /// The level of a node.
    pub fn level(&self, node: u16) -> u8
        ensures { (boxes : List (Maybe BoxOf)) → length boxes ≡ self.now.count → result ≡ level_at (by_sixteens boxes) node }
    {
        self.row_of(node).map_or(0, |row| row.level)
    }

    /// How many places a node has.
    pub fn place_count(&self, node: u16) -> u8
        ensures { (boxes : List (Maybe BoxOf)) → length boxes ≡ self.now.count → result ≡ length (places_at (by_sixteens boxes) node) }
    {
        self.row_of(node).map_or(0, |row| {
            (row.places - 16 * (node - row.first)).min(16) as u8
        })
    }

    /// What a place names, and which picks lie below it.
    pub fn covered(&self, node: u16, index: u8) -> Option<Covered>
        ensures inside { Within self.now.count result }
        ensures place { (boxes : List (Maybe BoxOf)) → length boxes ≡ self.now.count → covered_place boxes result ≡ place_at (by_sixteens boxes) node index }
    {
        let row = self.row_of(node)?;
        let place = 16 * (node - row.first) + index as u16;
        if index >= 16 || place >= row.places {
            return None;
        }
        let start = row.below * place;
        Some(Covered {
            target: row.target + place,
            start,
            end: (start + row.below).min(self.count),
        })
    }
}
