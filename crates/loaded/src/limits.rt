//! How large a lawful file can be: 57,350 bytes.

pub(crate) const MOST_NODES: usize = 512;

pub(crate) const MOST_ENTRIES: usize = 2_048;

pub(crate) const MOST_PICKS: usize = 2_048;

pub(crate) const MOST_LEVEL: u8 = 7;

pub(crate) const MOST_PLACES: u8 = 16;

/// The sizes of a count and of the records, in bytes.
pub(crate) const COUNT: usize = 2;

pub(crate) const NODE: usize = 4;

pub(crate) const ENTRY: usize = 26;

pub(crate) const PICK: usize = 1;
