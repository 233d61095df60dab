//! A book is whatever answers these questions as one value would.

ghost use Rattle.std.specs.Prelude.{◌≡◌};
ghost use Rattle.book.specs.Model.{Model, BookShape, node_count, pick_limit, level_of, place_count, place_of, kind_of};

use crate::kind::Kind;
use crate::place::Entry;

/// A book of picks. The last node is the root. Each question is answered for every number: outside the book a node has
/// level 0 and no places, a place is spoilt and a pick has no kind.
pub trait Book {
    ghost model: { Self → Model };

    fn node_count(&self) -> u16
        ensures { result ≡ node_count (model self.now) };

    fn pick_limit(&self) -> u16
        ensures { result ≡ pick_limit (model self.now) };

    fn level(&self, node: u16) -> u8
        ensures { result ≡ level_of (model self.now) node };

    fn place_count(&self, node: u16) -> u8
        ensures { result ≡ place_count (model self.now) node };

    fn place(&self, node: u16, index: u8) -> Option<Entry>
        ensures { result ≡ place_of (model self.now) node index };

    fn kind(&self, pick: u16) -> Option<Kind>
        ensures { result ≡ kind_of (model self.now) pick };

    ghost shape: { (b : Self) → BookShape (model b) };
}
