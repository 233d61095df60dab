//! Trees over drawn boxes.

ghost use Rattle.std.specs.Prelude.{◌<◌};

use crate::extent::Extent;
use crate::source::Source;
use std::alloc::AllocError;

#[derive(Clone, Copy, PartialEq, Eq, PartialOrd, Ord)]
pub struct Branch {
    pub extent: Extent,
    pub target: u16,
}

#[derive(Drop)]
pub struct Group {
    pub level: u8,
    pub branches: Vec<Branch>,
}

impl Source {
    // Each pick with a box.
    fn drawn_picks(&mut self) -> Result<Vec<Branch>, AllocError> {
        let shape = self.shape;
        let mut picks = Vec::new(self.heap);
        let numbers = self.shuffled(shape.pick_limit())?;
        for target in numbers.iter().copied().take(usize::from(shape.picks)) {
            let extent = shape.field.draw(&mut self.chance);
            picks.push(Branch { extent, target })?;
        }
        if shape.sorted {
            picks.sort()?;
        }
        Ok(picks)
    }

    // A box around these; around nothing any will do.
    fn box_around(&mut self, branches: &[Branch]) -> Extent {
        let extent = branches
            .iter()
            .map(|branch| branch.extent)
            .reduce(Extent::around)
            .unwrap_or_else(|| self.shape.field.draw(&mut self.chance));
        extent.loosened(&mut self.chance, self.shape.slack)
    }

    // These become a node; the answer names it.
    fn node_over(
        &mut self,
        nodes: &mut Vec<Group>,
        level: u8,
        below: &[Branch],
    ) -> Result<Branch, AllocError> {
        let extent = self.box_around(below);
        let target = u16::try_from(nodes.len()).unwrap_or(u16::MAX);
        let branches = below.to_vec(self.heap)?;
        nodes.push(Group { level, branches })?;
        Ok(Branch { extent, target })
    }

    // How many places the next node has, at least one.
    fn room(&mut self) -> usize
        ensures { 0 < result }
    {
        let room = self.chance.between(self.shape.narrowest, self.shape.widest);
        usize::try_from(room).unwrap_or(1).max(1)
    }

    // All nodes of one level over what they name; the answer names them.
    fn level_over(
        &mut self,
        nodes: &mut Vec<Group>,
        level: u8,
        below: &[Branch],
    ) -> Result<Vec<Branch>, AllocError> {
        let mut above = Vec::new(self.heap);
        let mut rest = below;
        loop {
            let room = self.room().min(rest.len());
            let (group, others) = rest.split_at(room);
            above.push(self.node_over(nodes, level, group)?)?;
            if others.is_empty() {
                return Ok(above);
            }
            rest = others;
        }
    }

    /// The nodes of a tree, level by level; the last is the root.
    pub(crate) fn drawn_tree(&mut self) -> Result<Vec<Group>, AllocError> {
        let mut nodes = Vec::new(self.heap);
        let mut below = self.drawn_picks()?;
        for level in 0..8u8 {
            below = self.level_over(&mut nodes, level, &below)?;
            if below.len() == 1 && level >= self.shape.height {
                break;
            }
        }
        Ok(nodes)
    }
}
