//! Why a call is refused.

ghost use Rattle.std.specs.Prelude.{◌≡◌};
ghost use Rattle.exported.specs.Outcome.{fault_outcome, result_outcome};
ghost use Rattle.exported.specs.declared.fault.Fault.TheVariants.{Memory, Refused};
ghost use Rattle.refusal.specs.declared.refusal.Refusal.TheVariants.{File, Tree, Typing};

use crate::crossing::Outcome;
use refusal::hands::{FileFault, TreeFault, TypingFault};
use refusal::refusal::Refusal;
use std::alloc::AllocError;

/// No refusal of a crew has this number.
const NO_MEMORY: u8 = 255;

#[derive(Clone, Copy, PartialEq, Eq, Debug)]
pub(crate) enum Fault {
    /// There is no memory for the book or the queries.
    Memory,
    Refused(Refusal),
}

// Written out, as in refusal: clauses name what `?` makes.
impl From<AllocError> for Fault {
    ghost from_gives = { λ _ fault. fault ≡ Memory };

    fn from(_: AllocError) -> Fault {
        Fault::Memory
    }
}

impl From<FileFault> for Fault {
    ghost from_gives = { λ file fault. fault ≡ Refused (File file) };

    fn from(fault: FileFault) -> Fault {
        Fault::Refused(Refusal::File(fault))
    }
}

impl From<TreeFault> for Fault {
    ghost from_gives = { λ tree fault. fault ≡ Refused (Tree tree) };

    fn from(fault: TreeFault) -> Fault {
        Fault::Refused(Refusal::Tree(fault))
    }
}

impl From<TypingFault> for Fault {
    ghost from_gives = { λ typing fault. fault ≡ Refused (Typing typing) };

    fn from(fault: TypingFault) -> Fault {
        Fault::Refused(Refusal::Typing(fault))
    }
}

impl From<Fault> for Outcome {
    ghost from_gives = { λ fault outcome. outcome ≡ fault_outcome fault };

    fn from(fault: Fault) -> Outcome {
        let refusal = match fault {
            Fault::Memory => NO_MEMORY,
            Fault::Refused(refusal) => refusal.number(),
        };
        Outcome { refusal, count: 0 }
    }
}

impl From<Result<usize, Fault>> for Outcome {
    ghost from_gives = { λ answer outcome. outcome ≡ result_outcome answer };

    fn from(answer: Result<usize, Fault>) -> Outcome {
        match answer {
            Ok(count) => Outcome { refusal: 0, count },
            Err(fault) => Outcome::from(fault),
        }
    }
}
