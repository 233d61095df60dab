//! A plain decoder, written from the file form and from nothing else.

ghost use Rattle.std.specs.Prelude.{◌<◌, ◌^◌};

use book::book::Book;
use book::place::Entry;
use geometry::bounds::Bounds;
use loaded::loaded::Loaded;

/// Why a file is unlawful, with the number that the file form gives it.
#[derive(Clone, Copy, PartialEq, Eq, Debug)]
pub(crate) enum Unlawful {
    Length = 1,
    Count = 2,
    Nodes = 3,
    Kind = 4,
}

/// The records of a lawful file.
#[derive(Clone, Copy)]
pub(crate) struct Records<'a> {
    nodes: &'a [[u8; 4]],
    entries: &'a [[u8; 26]],
    kinds: &'a [u8],
}

// A count from `least` to `most`, and the bytes behind it.
fn count(bytes: &[u8], least: u16, most: u16) -> Result<(usize, &[u8]), Unlawful> {
    let (number, rest) = bytes.split_first_chunk().ok_or(Unlawful::Length)?;
    let number = u16::from_le_bytes(*number);
    if least <= number && number <= most {
        Ok((usize::from(number), rest))
    } else {
        Err(Unlawful::Count)
    }
}

// So many records, and the bytes behind them.
fn section<const SIZE: usize>(
    bytes: &[u8],
    count: usize,
) -> Result<(&[[u8; SIZE]], &[u8]), Unlawful>
    requires { (0 < SIZE) × (SIZE < 2 ^ 63) }
{
    let (records, rest) = bytes
        .split_at_checked(count.saturating_mul(SIZE))
        .ok_or(Unlawful::Length)?;
    Ok((records.as_chunks().0, rest))
}

// The places of all nodes together.
fn places(nodes: &[[u8; 4]]) -> Result<usize, Unlawful> {
    let mut sum = 0usize;
    for [level, places, low, high] in nodes {
        let first = u16::from_le_bytes([*low, *high]);
        if *level > 7 || *places > 16 || usize::from(first) != sum {
            return Err(Unlawful::Nodes);
        }
        sum = sum.saturating_add(usize::from(*places));
    }
    Ok(sum)
}

/// The records of a file, or why it is unlawful.
pub(crate) fn decoded(bytes: &[u8]) -> Result<Records<'_>, Unlawful> {
    let (many, rest) = count(bytes, 1, 512)?;
    let (nodes, rest) = section(rest, many)?;
    let sum = places(nodes)?;
    let (many, rest) = count(rest, 0, 2_048)?;
    if many != sum {
        return Err(Unlawful::Nodes);
    }
    let (entries, rest) = section(rest, many)?;
    let (many, rest) = count(rest, 0, 2_048)?;
    let (kinds, rest) = rest.split_at_checked(many).ok_or(Unlawful::Length)?;
    if !kinds.iter().all(|kind| (1..=5).contains(kind)) {
        return Err(Unlawful::Kind);
    }
    if !rest.is_empty() {
        return Err(Unlawful::Length);
    }
    Ok(Records {
        nodes,
        entries,
        kinds,
    })
}

/// An entry as plain numbers, a corner's in the order easting, northing, level.
#[derive(Clone, Copy, PartialEq, Eq)]
struct PlainEntry {
    low: [i32; 3],
    high: [i32; 3],
    target: u16,
}

impl From<Entry> for PlainEntry {
    fn from(entry: Entry) -> PlainEntry {
        let Bounds {
            easting,
            northing,
            level,
        } = entry.bounds;
        PlainEntry {
            low: [easting.low, northing.low, level.low],
            high: [easting.high, northing.high, level.high],
            target: entry.target,
        }
    }
}

// What the record of an entry says, where its ends make a box.
fn entry_in(record: &[u8; 26]) -> Option<PlainEntry> {
    let (ends, target) = record.as_chunks();
    let (low, ends) = ends.split_first_chunk()?;
    let (high, _) = ends.split_first_chunk()?;
    let low = low.map(i32::from_le_bytes);
    let high = high.map(i32::from_le_bytes);
    let fine = low.iter().zip(&high).all(|(low, high)| -10_000_000 <= *low
        && *low <= *high
        && *high <= 10_000_000);
    let target = u16::from_le_bytes(*target.first_chunk()?);
    fine.then_some(PlainEntry { low, high, target })
}

impl Records<'_> {
    fn has_node(&self, book: &Loaded, node: u16, record: &[u8; 4]) -> bool {
        let [level, places, low, high] = *record;
        let first = usize::from(u16::from_le_bytes([low, high]));
        let (_, entries) = self.entries.split_at_checked(first).unwrap_or((&[], &[]));
        book.level(node) == level
            && book.place_count(node) == places
            && usize::from(places) <= entries.len()
            && (0..places).zip(entries).all(|(index, record)| {
                book.place(node, index).map(PlainEntry::from) == entry_in(record)
            })
    }

    /// Whether a loaded book is the one in the file.
    pub(crate) fn are_of(&self, book: &Loaded) -> bool {
        usize::from(book.node_count()) == self.nodes.len()
            && usize::from(book.pick_limit()) == self.kinds.len()
            && (0..book.node_count())
                .zip(self.nodes)
                .all(|(node, record)| self.has_node(book, node, record))
            && (0..book.pick_limit()).zip(self.kinds).all(|(pick, kind)| book
                .kind(pick)
                .map(u8::from)
                == Some(*kind))
    }
}
