//! What a join measures of its two books, once.

ghost use Rattle.std.specs.Prelude.{◌+◌, ◌<◌, ◌≤◌};

use geometry::bounds::Bounds;

mod parts;

/// How many nodes and picks a book has.
#[derive(Clone, Copy)]
pub(crate) struct Sizes {
    pub nodes: u16,
    pub picks: u16,
}

/// The sizes of two books that fit together, and the new root: its level, and the boxes of the old roots.
#[derive(Clone, Copy)]
pub(crate) struct Seam {
    pub left: Sizes,
    pub right: Sizes,
    pub level: u8,
    pub left_box: Option<Bounds>,
    pub right_box: Option<Bounds>,
    ghost some: { 0 < left.nodes },
    ghost nodes: { left.nodes + right.nodes + 1 ≤ 512 },
    ghost picks: { left.picks + right.picks ≤ 2048 },
    ghost low: { level ≤ 7 },
}

/// Where a node of a joined book comes from.
#[derive(Clone, Copy)]
pub(crate) enum Part {
    Left(u16),
    Right(u16),
    Root,
    Outside,
}
