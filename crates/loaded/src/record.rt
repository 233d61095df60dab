//! What a file says of a node.

/// A node's level, how many places it has, and where the first of them stands among the entries of all nodes.
#[derive(Clone, Copy)]
pub struct NodeRecord {
    pub level: u8,
    pub places: u8,
    pub first: u16,
}
