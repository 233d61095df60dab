//! The book that a caller holds before any file is loaded.

ghost use Rattle.std.specs.Prelude.{◌≡◌, IfOk};
ghost use Rattle.book.specs.Model.{empty_book};
ghost use Rattle.loaded.specs.Loaded.{loaded_model};

use crate::limits::{MOST_ENTRIES, MOST_NODES, MOST_PICKS};
use crate::loaded::Loaded;
use crate::record::NodeRecord;
use std::alloc::{AllocError, Global};

impl Loaded {
    /// The empty book, with room for the largest lawful file, so that no load wants memory.
    pub fn empty(heap: Global) -> Result<Loaded, AllocError>
        ensures { IfOk result (λ b. loaded_model b ≡ empty_book) }
    {
        let mut nodes = Vec::with_capacity(heap, MOST_NODES)?;
        let places = Vec::with_capacity(heap, MOST_ENTRIES)?;
        let kinds = Vec::with_capacity(heap, MOST_PICKS)?;
        nodes.push_reserved(NodeRecord {
            level: 0,
            places: 0,
            first: 0,
        });
        Ok(Loaded {
            nodes,
            places,
            kinds,
        })
    }
}
