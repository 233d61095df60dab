//! What books and turns are drawn from.

use crate::shape::Shape;
use chance::chance::Chance;
use std::alloc::{AllocError, Global};

/// The chance that all is drawn by, and the shape of the books that are drawn now.
#[derive(Drop)]
pub struct Source {
    pub heap: Global,
    pub chance: Chance,
    pub shape: Shape,
}

impl Source {
    /// The numbers below `count` in any order.
    pub(crate) fn shuffled(&mut self, count: u16) -> Result<Vec<u16>, AllocError> {
        let mut numbers = Vec::with_capacity(self.heap, usize::from(count))?;
        for number in 0..count {
            numbers.push(number)?;
            let place = self.chance.place(numbers.len());
            let last = numbers.len() - 1;
            numbers.swap(place, last);
        }
        Ok(numbers)
    }
}
