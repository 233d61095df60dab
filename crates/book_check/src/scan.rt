//! The check.

ghost use Rattle.std.specs.Prelude.{◌≡◌, ℕ, ◌≤◌, Ok};
ghost use Rattle.refusal.specs.Told.{answered, tree_told};
ghost use Rattle.book_check.specs.Marks.{first_unnamed};
ghost use Rattle.book_check.specs.Sound.{unless};
ghost use Rattle.book_check.specs.Names.{picks_named};
ghost use Rattle.book_check.specs.Tree.{Tree};
ghost use Rattle.book_check.specs.Accepted.{Accepted, Exactly};
ghost use Rattle.book_check.specs.Checked.{checked};

use crate::named::Named;
use crate::sound::sound_target;
use crate::target::{Target, root_of};
use book::book::Book;
use book::totals::total_places;
use refusal::hands::TreeFault;

/// A browse has waiting places for this many entries.
const MOST_PLACES: usize = 2048;

/// Each node below the root is among the named, or else the lowest that is not is told.
fn all_named(named: &Named, root: u16) -> Result<(), TreeFault>
    requires { root ≤ 512 }
    ensures { answered tree_told result ≡ unless (first_unnamed named.now root) tt }
{
    (0..root)
        .find(|node| !named.has(Target::Child(*node)))
        .map_or(Ok(()), |node| Err(TreeFault::Unnamed { node }))
}

/// Accepts the book with the number of different picks that its entries name, or tells its first fault, lowest node
/// first, then lowest place.
pub fn check<B: Book>(book: &B) -> Result<u16, TreeFault>
    ensures answer { answered tree_told result ≡ checked (B.Book.model book.now) }
    ensures accepts { (k : ℕ) → Exactly (result ≡ Ok k) (Accepted (B.Book.model book.now) × (k ≡ picks_named (B.Book.model book.now))) }
    ensures tree { (k : ℕ) → result ≡ Ok k → Tree (B.Book.model book.now) }
{
    if total_places(book) > MOST_PLACES {
        return Err(TreeFault::TooManyPlaces);
    }
    let nodes = book.node_count();
    let root = root_of(book);
    let mut named = Named::none();
    // A form of the project: nested loops over nodes and places, left at each fault by the label.
    let scanned = 'scan: {
        for node in 0..nodes {
            let places = book.place_count(node);
            if node < root && places == 0 {
                break 'scan Err(TreeFault::NoPlaces { node });
            }
            for place in 0..places {
                let target = match sound_target(book, node, place) {
                    Ok(target) => target,
                    Err(fault) => break 'scan Err(fault),
                };
                if named.has(target) {
                    break 'scan Err(TreeFault::NamedTwice { node, place });
                }
                named.add(target);
            }
        }
        all_named(&named, root)
    };
    scanned?;
    Ok(named.pick_count())
}
