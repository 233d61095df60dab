//! One drawn book compared, then shifted, then joined with another.

use crate::agreed::Agreed;
use crate::extent::Extent;
use crate::scan::entries;
use crate::source::Source;
use anyhow::anyhow;
use book::book::Book;
use geometry::bounds::{LEAST, MOST, Point};
use loaded::loaded::Loaded;
use makes::join::{Join, fits};
use makes::offset::Offset;
use makes::shift::Shift;

/// What agreed, by how the books were made.
#[derive(Clone, Copy, Default)]
pub struct Results {
    pub loaded: Agreed,
    pub shifted: Agreed,
    pub joined: Agreed,
    pub joined_shifted: Agreed,
}

impl Source {
    // As far down or up as the range allows, or anything between.
    fn drawn_amount(&mut self, low: i32, high: i32) -> i32 {
        let least = LEAST.saturating_sub(low);
        let most = MOST.saturating_sub(high);
        match self.chance.below(3) {
            0 => least,
            1 => most,
            _ => self.chance.between(least, most),
        }
    }

    // An offset by which no box of the book leaves the range.
    fn drawn_offset<B: Book>(&mut self, book: &B) -> anyhow::Result<Offset> {
        let origin = Extent {
            low: Point::ORIGIN,
            high: Point::ORIGIN,
        };
        let Extent { low, high } = entries(self.heap, book)?
            .iter()
            .map(|(_, entry)| Extent::from(&entry.bounds))
            .fold(origin, Extent::around);
        Offset::new(Point {
            easting: self.drawn_amount(low.easting, high.easting),
            northing: self.drawn_amount(low.northing, high.northing),
            level: self.drawn_amount(low.level, high.level),
        })
        .map_err(|_| anyhow!("a drawn offset is refused"))
    }

    // The join of both, and a shift of that, where they fit and leave places for all.
    fn compare_joined(&mut self, left: Shift<Loaded>, results: &mut Results) -> anyhow::Result<()> {
        let right = self.drawn_book()?;
        if self.shape.picks > 750 || fits(&left, &right).is_err() {
            return Ok(());
        }
        let book = Join::new(left, right);
        let book = self.compare(book, &mut results.joined)?;
        let offset = self.drawn_offset(&book)?;
        let book = Shift::new(book, offset);
        self.compare(book, &mut results.joined_shifted)?;
        Ok(())
    }

    /// Draws a book of this shape and compares all that is made of it.
    pub(crate) fn round(&mut self, results: &mut Results) -> anyhow::Result<()> {
        let book = self.drawn_book()?;
        let book = self.compare(book, &mut results.loaded)?;
        let offset = self.drawn_offset(&book)?;
        let book = Shift::new(book, offset);
        let book = self.compare(book, &mut results.shifted)?;
        self.compare_joined(book, results)
    }
}
