//! The tree by sixteens over a number of picks.

ghost use Rattle.std.specs.Prelude.{◌<◌, ◌≤◌};

mod answers;
mod rows;

/// The tree over so many picks: sixteen to a leaf, sixteen nodes to a node above, until one is left.
#[derive(Clone, Copy)]
pub struct Sixteens {
    pub count: u16,
    ghost some: { 0 < count },
    ghost few: { count ≤ 1000 },
}

// No ghost field says that the numbers are small: definitions make rows of any count, which such a field would forbid.
/// One level of the tree: its first node, what its first place names, how many places it has in all its nodes, and how
/// many picks lie below a place.
#[derive(Clone, Copy)]
pub(crate) struct Row {
    pub level: u8,
    pub first: u16,
    pub target: u16,
    pub places: u16,
    pub below: u16,
}

/// A place of the tree: what it names, and the picks below it, from `start` to before `end`.
#[derive(Clone, Copy)]
pub struct Covered {
    pub target: u16,
    pub start: u16,
    pub end: u16,
}
