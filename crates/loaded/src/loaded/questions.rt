//! The questions, each answered by one look into a table.

ghost use Rattle.loaded.specs.Loaded.{loaded_model};
ghost use Rattle.loaded.specs.TablesLemmas as Tables;

use crate::loaded::Loaded;
use book::book::Book;
use book::kind::Kind;
use book::place::Entry;

impl Book for Loaded {
    ghost model = { loaded_model };

    ghost shape = { λ b. Tables.shape b.nodes.items b.places.items b.kinds.items b.some b.nodes_most b.picks_most b.lawful b.targets };

    fn node_count(&self) -> u16 {
        self.nodes.len() as u16
    }

    fn pick_limit(&self) -> u16 {
        self.kinds.len() as u16
    }

    fn level(&self, node: u16) -> u8 {
        self.nodes
            .get(node as usize)
            .map_or(0, |record| record.level)
    }

    fn place_count(&self, node: u16) -> u8 {
        self.nodes
            .get(node as usize)
            .map_or(0, |record| record.places)
    }

    fn place(&self, node: u16, index: u8) -> Option<Entry> {
        let record = self.nodes.get(node as usize)?;
        if index >= record.places {
            return None;
        }
        self.places[record.first as usize + index as usize]
    }

    #[tactic(auto, using(crate::specs::TablesLemmas::kind_found))]
    fn kind(&self, pick: u16) -> Option<Kind> {
        self.kinds.get(pick as usize).copied()
    }
}
