//! A book in tables of its own.

ghost use Rattle.std.specs.Prelude.{◌≡◌, ◌<◌, ◌≤◌, true, length, vec_capacity};
ghost use Rattle.loaded.specs.Tables.{lawful_nodes, places_of_all, all_targets_fit};

use crate::record::NodeRecord;
use book::kind::Kind;
use book::place::Entry;

mod empty;
mod load;
mod questions;

/// The book that was loaded last. The tables have room for the largest lawful file from the start.
#[derive(Drop)]
pub struct Loaded {
    nodes: Vec<NodeRecord>,
    places: Vec<Option<Entry>>,
    kinds: Vec<Kind>,
    ghost some: { 0 < length nodes.items },
    ghost nodes_most: { length nodes.items ≤ 512 },
    ghost picks_most: { length kinds.items ≤ 2048 },
    ghost lawful: { lawful_nodes nodes.items ≡ true },
    ghost total: { places_of_all nodes.items ≡ length places.items },
    ghost targets: { all_targets_fit places.items ≡ true },
    ghost node_room: { 512 ≤ vec_capacity nodes },
    ghost place_room: { 2048 ≤ vec_capacity places },
    ghost kind_room: { 2048 ≤ vec_capacity kinds },
}
