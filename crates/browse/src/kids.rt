//! The entries of one node, on their way to wait.

ghost use Rattle.std.specs.Prelude.{◌≡◌, ◌≤◌, length};

use crate::waiting::Waiting;

mod moves;

// A table and a count of its own: so browsing rests on the standard library alone, with nothing on a heap.
/// What a node's entries name, lower place first. A node has at most 16 places.
#[derive(Drop)]
pub(crate) struct Kids {
    table: [Waiting; 16],
    count: usize,
    ghost whole: { length table ≡ 16 },
    ghost within: { count ≤ 16 },
}
