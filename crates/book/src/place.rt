//! What stands in a node.

use geometry::bounds::Bounds;

/// A box, and what it is the box of: a pick in a leaf, a node above that. A place of a node holds an entry, or none where
/// it is spoilt.
#[derive(Clone, Copy)]
pub struct Entry {
    pub bounds: Bounds,
    pub target: u16,
}
