//! How much was found to agree.

use anyhow::anyhow;
use browse::answer::{Answer, Found};
use std::fmt;

#[derive(Clone, Copy, Default)]
pub struct Agreed {
    pub books: u32,
    pub browses: u32,
    pub rows: u32,
    pub counts: u32,
}

impl Agreed {
    fn note(&mut self, answer: Answer) {
        let (rows, counts) = match answer {
            Answer::Next(Ok(Found { row: Some(_), .. })) => (1, 1),
            Answer::Next(_) => (0, 1),
            Answer::Report(_) => (0, 2),
        };
        self.rows = self.rows.saturating_add(rows);
        self.counts = self.counts.saturating_add(counts);
    }

    /// One answer of the browse beside the scan's.
    pub(crate) fn hold(&mut self, got: Answer, wanted: Answer) -> anyhow::Result<()> {
        if got != wanted {
            return Err(anyhow!("an answer differs from the plain scan"));
        }
        self.note(got);
        Ok(())
    }
}

impl fmt::Display for Agreed {
    fn fmt<W: fmt::Write>(&self, f: &mut fmt::Formatter<W>) -> fmt::Result {
        let Agreed {
            books,
            browses,
            rows,
            counts,
        } = self;
        write!(
            f,
            "{books} books, {browses} browses, {rows} rows and {counts} counts agreed"
        )
    }
}
