//! The smallest box around those that there are.

ghost use Rattle.std.specs.Prelude.{◌≡◌};
ghost use Rattle.makes.specs.Smallest.{around_both};

use geometry::bounds::Bounds;

/// The smallest box around two that may be missing.
pub(crate) fn around_both(one: Option<Bounds>, other: Option<Bounds>) -> Option<Bounds>
    ensures { result ≡ around_both one other }
{
    match (one, other) {
        (Some(first), Some(second)) => Some(first.around(&second)),
        _ => one.or(other),
    }
}
