//! The node records of a file.

ghost use Rattle.std.specs.Prelude.{◌≡◌, ◌≤◌, length, map};
ghost use Rattle.loaded.specs.Decode.{node_from};
ghost use Rattle.loaded.specs.Tables.{within_limits, firsts_add_up, places_of_all};

use crate::limits::{MOST_LEVEL, MOST_PLACES, NODE};
use crate::record::NodeRecord;

impl From<[u8; NODE]> for NodeRecord {
    ghost from_gives = { λ bytes node. node ≡ node_from bytes };

    fn from(bytes: [u8; NODE]) -> NodeRecord {
        let [level, places, low, high] = bytes;
        NodeRecord {
            level,
            places,
            first: u16::from_le_bytes([low, high]),
        }
    }
}

/// Whether each level and number of places is within its limit.
pub(crate) fn within_limits(records: &[[u8; NODE]]) -> bool
    ensures { result ≡ within_limits (map node_from records.now) }
{
    records.iter().all(|record| {
        let node = NodeRecord::from(*record);
        node.level <= MOST_LEVEL && node.places <= MOST_PLACES
    })
}

/// Whether each first entry is the sum of the places of all earlier nodes.
pub(crate) fn firsts_add_up(records: &[[u8; NODE]]) -> bool
    requires { length records.now ≤ 512 }
    ensures { result ≡ firsts_add_up 0 (map node_from records.now) }
{
    let mut earlier = 0;
    for record in records {
        let node = NodeRecord::from(*record);
        if node.first as usize != earlier {
            return false;
        }
        earlier += node.places as usize;
    }
    true
}

/// How many places the nodes have together.
pub(crate) fn places_of_all(records: &[[u8; NODE]]) -> usize
    requires { length records.now ≤ 512 }
    ensures { result ≡ places_of_all (map node_from records.now) }
{
    records
        .iter()
        .map(|record| NodeRecord::from(*record).places as usize)
        .sum()
}
