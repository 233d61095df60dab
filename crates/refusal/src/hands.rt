//! One enum for each hand that can bring a bad input. A fault's number is that of its variant, or of its method `number`.

ghost use Rattle.std.specs.Prelude.{◌≡◌};
ghost use Rattle.refusal.specs.Told.{tree_told, slice_told};

/// The maker of a file.
#[derive(Clone, Copy, PartialEq, Eq, Debug)]
pub enum FileFault {
    /// Bytes are missing, or some are left over.
    Length = 1,
    /// A section's count is outside its limits.
    Count = 2,
    /// A node record is unlawful, or the places do not add up to the entries.
    Nodes = 3,
    /// A pick's kind is not 1 to 5.
    Kind = 4,
}

/// The hand who types.
#[derive(Clone, Copy, PartialEq, Eq, Debug)]
pub enum TypingFault {
    /// A coordinate is out of range.
    OutOfRange = 5,
    /// A low end lies above its high end.
    Reversed = 6,
    /// A shift moves by more than the range allows.
    ShiftAmount = 7,
    /// A tally's joints or length are outside their limits.
    Tally = 24,
    /// The line is no command.
    Command = 25,
    /// The command is not possible in this state.
    State = 26,
    /// The text is no level.
    NotALevel = 27,
}

/// Whoever brings two books to be joined.
#[derive(Clone, Copy, PartialEq, Eq, Debug)]
pub enum JoinFault {
    /// The nodes together, with the new root, are too many.
    TooManyNodes = 8,
    /// The pick limits together are too high.
    TooManyPicks = 9,
    /// The root levels differ, or leave no level for the new root.
    RootLevels = 10,
    /// A root has no places.
    EmptyRoot = 11,
}

/// The builder of a tree.
#[derive(Clone, Copy, PartialEq, Eq, Debug)]
pub enum TreeFault {
    /// The book has too many places.
    TooManyPlaces,
    /// A node other than the root has no places.
    NoPlaces { node: u16 },
    /// The place holds no entry.
    Spoilt { node: u16, place: u8 },
    /// The target is not in the book.
    Target { node: u16, place: u8 },
    /// The child is not one level lower.
    ChildLevel { node: u16, place: u8 },
    /// An entry of the child lies outside the box that names the child.
    Outside { node: u16, place: u8 },
    /// The target was named before.
    NamedTwice { node: u16, place: u8 },
    /// No place names this node.
    Unnamed { node: u16 },
    /// A browse cannot open this node.
    Broken { node: u16 },
}

impl TreeFault {
    /// The number that the console prints.
    pub(crate) fn number(self) -> u8
        ensures { result ≡ (tree_told self).number }
    {
        match self {
            TreeFault::TooManyPlaces => 12,
            TreeFault::NoPlaces { .. } => 13,
            TreeFault::Spoilt { .. } => 14,
            TreeFault::Target { .. } => 15,
            TreeFault::ChildLevel { .. } => 16,
            TreeFault::Outside { .. } => 17,
            TreeFault::NamedTwice { .. } => 18,
            TreeFault::Unnamed { .. } => 19,
            TreeFault::Broken { .. } => 20,
        }
    }

    /// The node at fault, where there is one.
    pub(crate) fn node(self) -> Option<u16>
        ensures { result ≡ (tree_told self).node }
    {
        match self {
            TreeFault::TooManyPlaces => None,
            TreeFault::NoPlaces { node }
            | TreeFault::Spoilt { node, .. }
            | TreeFault::Target { node, .. }
            | TreeFault::ChildLevel { node, .. }
            | TreeFault::Outside { node, .. }
            | TreeFault::NamedTwice { node, .. }
            | TreeFault::Unnamed { node }
            | TreeFault::Broken { node } => Some(node),
        }
    }

    /// The place at fault, where there is one.
    pub(crate) fn place(self) -> Option<u8>
        ensures { result ≡ (tree_told self).place }
    {
        match self {
            TreeFault::Spoilt { place, .. }
            | TreeFault::Target { place, .. }
            | TreeFault::ChildLevel { place, .. }
            | TreeFault::Outside { place, .. }
            | TreeFault::NamedTwice { place, .. } => Some(place),
            _ => None,
        }
    }
}

/// The caller's slices.
#[derive(Clone, Copy, PartialEq, Eq, Debug)]
pub enum SliceFault {
    /// The bytes are too few for what is to be written.
    TooShort,
    /// The rows wanted, the sheet's size or the answer slice do not fit.
    Sheet,
    /// A record of the sheet has a coordinate out of range.
    Record { place: u8 },
}

impl SliceFault {
    /// The number that the console prints.
    pub(crate) fn number(self) -> u8
        ensures { result ≡ (slice_told self).number }
    {
        match self {
            SliceFault::TooShort => 21,
            SliceFault::Sheet => 22,
            SliceFault::Record { .. } => 23,
        }
    }
}
