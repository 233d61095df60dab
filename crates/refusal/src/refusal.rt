//! Any refusal, whoever caused it, and what is told of it.

ghost use Rattle.std.specs.Prelude.{◌≡◌};
ghost use Rattle.refusal.specs.Told.{told, file_told, typing_told, join_told, tree_told, slice_told};

use crate::hands::{FileFault, JoinFault, SliceFault, TreeFault, TypingFault};

#[derive(Clone, Copy, PartialEq, Eq, Debug)]
pub enum Refusal {
    File(FileFault),
    Typing(TypingFault),
    Join(JoinFault),
    Tree(TreeFault),
    Slice(SliceFault),
}

impl Refusal {
    /// The number that the console prints.
    pub fn number(self) -> u8
        ensures { result ≡ (told self).number }
    {
        match self {
            Refusal::File(fault) => fault as u8,
            Refusal::Typing(fault) => fault as u8,
            Refusal::Join(fault) => fault as u8,
            Refusal::Tree(fault) => fault.number(),
            Refusal::Slice(fault) => fault.number(),
        }
    }

    /// The node at fault, where there is one.
    pub fn node(self) -> Option<u16>
        ensures { result ≡ (told self).node }
    {
        match self {
            Refusal::Tree(fault) => fault.node(),
            _ => None,
        }
    }

    /// The place at fault, of that node or of the day sheet, where there is one.
    pub fn place(self) -> Option<u8>
        ensures { result ≡ (told self).place }
    {
        match self {
            Refusal::Tree(fault) => fault.place(),
            Refusal::Slice(SliceFault::Record { place }) => Some(place),
            _ => None,
        }
    }
}

// written out: an impl of thiserror's #[from] has no contract, and clauses above name what `?` makes
impl From<FileFault> for Refusal {
    ghost from_gives = { λ fault r. told r ≡ file_told fault };

    fn from(fault: FileFault) -> Refusal {
        Refusal::File(fault)
    }
}

impl From<TypingFault> for Refusal {
    ghost from_gives = { λ fault r. told r ≡ typing_told fault };

    fn from(fault: TypingFault) -> Refusal {
        Refusal::Typing(fault)
    }
}

impl From<JoinFault> for Refusal {
    ghost from_gives = { λ fault r. told r ≡ join_told fault };

    fn from(fault: JoinFault) -> Refusal {
        Refusal::Join(fault)
    }
}

impl From<TreeFault> for Refusal {
    ghost from_gives = { λ fault r. told r ≡ tree_told fault };

    fn from(fault: TreeFault) -> Refusal {
        Refusal::Tree(fault)
    }
}

impl From<SliceFault> for Refusal {
    ghost from_gives = { λ fault r. told r ≡ slice_told fault };

    fn from(fault: SliceFault) -> Refusal {
        Refusal::Slice(fault)
    }
}
