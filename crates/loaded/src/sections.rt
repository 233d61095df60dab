//! The sections of a file, each after its count, tested in the order in which they stand.

ghost use Rattle.std.specs.Prelude.{◌≡◌, ◌*◌, ◌<◌, ◌≤◌, length, IfOk};
ghost use Rattle.loaded.specs.Reading.{count_in, records_in, read};
ghost use Rattle.loaded.specs.Decode.{node_section, entry_section, pick_section, three_sections};
ghost use Rattle.loaded.specs.Seen.{seen, joined, Whole, with_rest, nodes_in, places_in, kinds_in, sections_seen, LawfulNodes, LawfulEntries, LawfulPicks, LawfulSections};

use crate::limits::{COUNT, ENTRY, MOST_ENTRIES, MOST_NODES, MOST_PICKS, NODE, PICK};
use crate::nodes::{firsts_add_up, places_of_all, within_limits};
use crate::picks::all_kinds;
use refusal::hands::FileFault;

/// The records of a section, each of so many bytes, and the bytes after them.
#[derive(Clone, Copy)]
pub(crate) struct Section<'a, const SIZE: usize> {
    pub(crate) records: &'a [[u8; SIZE]],
    pub(crate) rest: &'a [u8],
}

/// The three sections of a file.
#[derive(Clone, Copy)]
pub(crate) struct Sections<'a> {
    pub(crate) nodes: Section<'a, NODE>,
    pub(crate) entries: Section<'a, ENTRY>,
    pub(crate) picks: Section<'a, PICK>,
}

/// The count at the front of a section, and the bytes after it.
#[tactic(auto, unfolding(crate::specs::Reading::count_in))]
fn read_count(bytes: &[u8], least: usize, most: usize) -> Result<(usize, &[u8]), FileFault>
    ensures seen { seen (λ c. read c.0 c.1.now) result ≡ count_in least most bytes.now }
    ensures within { IfOk result (λ c. (least ≤ c.0) × (c.0 ≤ most)) }
{
    let (count, rest) = bytes.split_first_chunk::<COUNT>().ok_or(FileFault::Length)?;
    let count = u16::from_le_bytes(*count) as usize;
    if count < least || count > most {
        return Err(FileFault::Count);
    }
    Ok((count, rest))
}

/// So many records, and the bytes after them.
#[tactic(auto, unfolding(crate::specs::Reading::records_in))]
fn read_records<const SIZE: usize>(
    bytes: &[u8],
    count: usize,
) -> Result<Section<'_, SIZE>, FileFault>
    requires size { (0 < SIZE) × (SIZE < 65536) }
    requires fits { count * SIZE < 65536 }
    ensures seen { seen (λ s. read (joined s.records.now) s.rest.now) result ≡ records_in count SIZE bytes.now }
    ensures whole { IfOk result (λ s. Whole SIZE count s.records.now) }
{
    let (records, rest) = bytes
        .split_at_checked(count * SIZE)
        .ok_or(FileFault::Length)?;
    let (records, _) = records.as_chunks();
    Ok(Section { records, rest })
}

#[tactic(auto, unfolding(crate::specs::Decode::node_section), using(crate::proofs::Cut::whole_rows))]
fn read_nodes(bytes: &[u8]) -> Result<Section<'_, NODE>, FileFault>
    ensures seen { seen (with_rest nodes_in) result ≡ node_section bytes.now }
    ensures lawful { IfOk result LawfulNodes }
{
    let (count, rest) = read_count(bytes, 1, MOST_NODES)?;
    let section = read_records(rest, count)?;
    if !within_limits(section.records) || !firsts_add_up(section.records) {
        return Err(FileFault::Nodes);
    }
    Ok(section)
}

#[tactic(auto, unfolding(crate::specs::Decode::entry_section))]
fn read_entries(bytes: &[u8], places: usize) -> Result<Section<'_, ENTRY>, FileFault>
    ensures seen { seen (with_rest places_in) result ≡ entry_section places bytes.now }
    ensures lawful { IfOk result (LawfulEntries places) }
{
    let (count, rest) = read_count(bytes, 0, MOST_ENTRIES)?;
    if count != places {
        return Err(FileFault::Nodes);
    }
    read_records(rest, count)
}

#[tactic(auto, unfolding(crate::specs::Decode::pick_section))]
fn read_picks(bytes: &[u8]) -> Result<Section<'_, PICK>, FileFault>
    ensures seen { seen (with_rest kinds_in) result ≡ pick_section bytes.now }
    ensures lawful { IfOk result LawfulPicks }
{
    let (count, rest) = read_count(bytes, 0, MOST_PICKS)?;
    let section = read_records(rest, count)?;
    if !all_kinds(section.records.as_flattened()) {
        return Err(FileFault::Kind);
    }
    Ok(section)
}

/// The three sections, or the first fault in them.
#[tactic(auto, unfolding(crate::specs::Decode::three_sections))]
pub(crate) fn read_sections(bytes: &[u8]) -> Result<Sections<'_>, FileFault>
    ensures seen { seen sections_seen result ≡ three_sections bytes.now }
    ensures lawful { IfOk result LawfulSections }
{
    let nodes = read_nodes(bytes)?;
    let entries = read_entries(nodes.rest, places_of_all(nodes.records))?;
    let picks = read_picks(entries.rest)?;
    Ok(Sections {
        nodes,
        entries,
        picks,
    })
}
