//! The targets that entries have named so far.

ghost use Rattle.std.specs.Prelude.{◌≡◌, false, ◌||◌};
ghost use Rattle.book_check.specs.Below.{count_below};
ghost use Rattle.book_check.specs.Marks.{bit_of, HasBit};
ghost use Rattle.book_check.specs.Targets.{same};
ghost use Rattle.book_check.specs.declared.target.Target.{Target as TargetOf};
ghost use Rattle.book_check.specs.declared.target.Target.TheVariants.{Pick as PickOf};

use crate::marks::{count_marked, is_marked, mark};
use crate::target::Target;

/// One bit a pick and one bit a node.
// A form of the project: fixed words of 64 bits, nothing on a heap.
#[derive(Clone, Copy)]
pub struct Named {
    picks: [u64; 32],
    nodes: [u64; 8],
}

impl Named {
    pub(crate) fn none() -> Named
        ensures { (t : TargetOf) → bit_of result t ≡ false }
    {
        Named {
            picks: [0; 32],
            nodes: [0; 8],
        }
    }

    pub(crate) fn has(&self, target: Target) -> bool
        requires { HasBit target }
        ensures { result ≡ bit_of self.now target }
    {
        match target {
            Target::Pick(pick) => is_marked(&self.picks, pick),
            Target::Child(node) => is_marked(&self.nodes, node),
        }
    }

    pub(crate) fn add(&mut self, target: Target)
        requires { HasBit target }
        ensures { (t : TargetOf) → bit_of self.new t ≡ same t target || bit_of self.old t }
    {
        match target {
            Target::Pick(pick) => mark(&mut self.picks, pick),
            Target::Child(node) => mark(&mut self.nodes, node),
        }
    }

    /// How many different picks have been named.
    pub(crate) fn pick_count(&self) -> u16
        ensures { result ≡ count_below (λ p. bit_of self.now (PickOf p)) 2048 }
    {
        count_marked(&self.picks)
    }
}
