//! Joins of accepted books, and the check of a join.

ghost use Rattle.std.specs.Prelude.{◌≡◌};
ghost use Rattle.refusal.specs.Told.{answered, tree_told};
ghost use Rattle.book_check.specs.Checked.{checked};
ghost use Rattle.makes.specs.Seam.{along};
ghost use Rattle.accepted_makes.specs.Joins.{JoinsAccepted, NeverRefused};

use book::book::Book;
use book_check::scan::check;
use makes::join::Join;
use refusal::hands::TreeFault;

/// Checks a join. Two accepted books that can be joined, with no more places than a browse can let wait, give a join that
/// is not refused.
pub fn check_join<L: Book, R: Book>(join: &Join<L, R>) -> Result<u16, TreeFault>
    ensures answer { answered tree_told result ≡ checked (along join.now.seam (L.Book.model join.now.left) (R.Book.model join.now.right)) }
    ensures taken { NeverRefused (along join.now.seam (L.Book.model join.now.left) (R.Book.model join.now.right)) (L.Book.model join.now.left) (R.Book.model join.now.right) result }
    ensures joins { JoinsAccepted }
{
    check(join)
}

/// Two accepted books that can be joined, with no more places than a browse can let wait, give an accepted book.
pub fn joins_are_accepted()
    ensures { JoinsAccepted }
{}
