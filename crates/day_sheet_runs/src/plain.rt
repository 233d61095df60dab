//! What a shortlist is to be, worked out plainly.

use day_sheet::record::Record;
use day_sheet::row::Row;
use geometry::bounds::Bounds;
use geometry::choice::Choice;
use plain_distance::distance::plain_distance;
use refusal::hands::TypingFault;

/// A row that no shortlist tells.
pub(crate) const BLANK: Row = Row {
    distance: u64::MAX,
    place: u8::MAX,
};

/// The rows of all records in order, and how many of them are to be told.
#[derive(Drop)]
pub(crate) struct Expected {
    rows: [Row; 256],
    count: usize,
}

impl Expected {
    pub(crate) fn new(
        sheet: &[Record],
        query: &Bounds,
        choice: Choice,
        k: usize,
    ) -> Result<Expected, TypingFault> {
        let mut rows = [BLANK; 256];
        for (place, record) in (0..=u8::MAX).zip(sheet) {
            let at = Bounds::at(record.point)?;
            let distance = plain_distance(choice, query, &at);
            rows[usize::from(place)] = Row { distance, place };
        }
        // by a key written here, not by the order that is compared with it; no two rows share a key
        rows[..sheet.len().min(256)].sort_unstable_by_key(|row| (row.distance, row.place));
        Ok(Expected {
            rows,
            count: k.min(sheet.len()),
        })
    }

    pub(crate) fn count(&self) -> usize {
        self.count
    }

    /// Whether the rows told are these, and the others as they were.
    pub(crate) fn has_rows(&self, answer: &[Row]) -> bool {
        answer.split_at_checked(self.count).is_some_and(|(told, others)| {
            self.rows.starts_with(told) && others.iter().all(|row| *row == BLANK)
        })
    }

    fn lists(&self, place: u8) -> bool {
        self.rows
            .iter()
            .take(self.count)
            .any(|row| row.place == place)
    }

    /// Whether just the records listed are marked, and nothing else changed.
    pub(crate) fn has_marks(&self, before: &[Record], after: &[Record]) -> bool {
        before.iter().zip(after).zip(0..=u8::MAX).all(|((was, is), place)| {
            let marked = self.lists(place);
            *is == Record { marked, ..*was }
        })
    }
}
