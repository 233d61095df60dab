//! Trees in the form of a book's file, and loaded.

use crate::source::Source;
use crate::tree::{Branch, Group};
use anyhow::anyhow;
use geometry::bounds::Point;
use loaded::loaded::Loaded;
use std::alloc::{AllocError, Global};

fn put_corner(bytes: &mut Vec<u8>, corner: Point) -> Result<(), AllocError> {
    bytes.extend_from_slice(&corner.easting.to_le_bytes())?;
    bytes.extend_from_slice(&corner.northing.to_le_bytes())?;
    bytes.extend_from_slice(&corner.level.to_le_bytes())
}

fn put_entry(bytes: &mut Vec<u8>, branch: &Branch, target: u16) -> Result<(), AllocError> {
    put_corner(bytes, branch.extent.low)?;
    put_corner(bytes, branch.extent.high)?;
    bytes.extend_from_slice(&target.to_le_bytes())
}

fn put_entries(bytes: &mut Vec<u8>, group: &Group, numbers: &[u16]) -> Result<(), AllocError> {
    for branch in group.branches.iter() {
        let target = if group.level == 0 {
            branch.target
        } else {
            numbers
                .get(usize::from(branch.target))
                .copied()
                .unwrap_or(u16::MAX)
        };
        put_entry(bytes, branch, target)?;
    }
    Ok(())
}

// The sections of nodes and entries. Each node stands at its number.
fn put_tree(
    heap: Global,
    bytes: &mut Vec<u8>,
    nodes: &[Group],
    numbers: &[u16],
) -> Result<(), AllocError> {
    let mut order: Vec<(&u16, &Group)> = numbers.iter().zip(nodes).collect(heap)?;
    order.sort_by_key(|(number, _)| **number)?;
    let mut entries = Vec::new(heap);
    let mut first = 0u16;
    let count = u16::try_from(nodes.len()).unwrap_or(u16::MAX);
    bytes.extend_from_slice(&count.to_le_bytes())?;
    for (_, group) in order.iter() {
        let places = u8::try_from(group.branches.len()).unwrap_or(u8::MAX);
        bytes.push(group.level)?;
        bytes.push(places)?;
        bytes.extend_from_slice(&first.to_le_bytes())?;
        put_entries(&mut entries, group, numbers)?;
        first = first.saturating_add(u16::from(places));
    }
    bytes.extend_from_slice(&first.to_le_bytes())?;
    bytes.extend_from_slice(&entries)
}

impl Source {
    // The file number of each node. All but the root, which is the last, stand in any order.
    fn node_numbers(&mut self, count: usize) -> Result<Vec<u16>, AllocError> {
        let root = u16::try_from(count).unwrap_or(u16::MAX).saturating_sub(1);
        let mut numbers = self.shuffled(root)?;
        numbers.push(root)?;
        Ok(numbers)
    }

    fn put_kinds(&mut self, bytes: &mut Vec<u8>) -> Result<(), AllocError> {
        let count = self.shape.pick_limit();
        bytes.extend_from_slice(&count.to_le_bytes())?;
        for _ in 0..count {
            bytes.push(self.chance.between(1, 5) as u8)?;
        }
        Ok(())
    }

    /// A drawn book, by way of its file.
    pub(crate) fn drawn_book(&mut self) -> anyhow::Result<Loaded> {
        let nodes = self.drawn_tree()?;
        let numbers = self.node_numbers(nodes.len())?;
        let mut bytes = Vec::new(self.heap);
        put_tree(self.heap, &mut bytes, &nodes, &numbers)?;
        self.put_kinds(&mut bytes)?;
        let mut book = Loaded::empty(self.heap)?;
        book.load(&bytes)
            .map_err(|_| anyhow!("a drawn file is refused"))?;
        Ok(book)
    }
}
