//! The check of a casing string.

ghost use Rattle.std.specs.Prelude.{◌≡◌};
ghost use Rattle.accepted_makes.specs.Tallies.{SixteensAccepted, TalliesAccepted};

use book_check::scan::check;
use makes::tally::Tally;

/// Checks a casing string. None is refused, and each of its collars is named: the answer is the number of its joints.
/// Nor is any other tree by sixteens over boxes that are all there.
pub fn check_tally(tally: &Tally) -> u16
    ensures answer { result ≡ tally.now.joints.count }
    ensures trees { SixteensAccepted }
    ensures tallies { TalliesAccepted }
{
    check(tally).unwrap_or(0)
}
