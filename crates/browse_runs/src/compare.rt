//! Browses of a book beside plain scans of it.

use crate::agreed::Agreed;
use crate::extent::{Extent, Field};
use crate::scan::Scan;
use crate::source::Source;
use anyhow::anyhow;
use book::book::Book;
use book_check::scan::check;
use browse::answer::Answer;
use browse::browse::Browse;
use geometry::bounds::Bounds;
use geometry::choice::Choice;
use search::turn::{Call, Hand, Turn};
use std::alloc::{AllocError, Global};

// All turns at once.
fn take_turns<B: Book>(
    heap: Global,
    browse: &mut Browse<B, Choice>,
    scan: &mut Scan,
    turns: &[Turn],
    agreed: &mut Agreed,
) -> anyhow::Result<()> {
    let answers = browse.take_turns(heap, turns)?;
    if answers.len() != turns.len() {
        return Err(anyhow!("an answer is missing"));
    }
    for (turn, answer) in turns.iter().zip(answers.iter()) {
        agreed.hold(*answer, scan.answer(turn.call))?;
    }
    Ok(())
}

// The same calls, one by one.
fn take_singly<B: Book>(
    browse: &mut Browse<B, Choice>,
    scan: &mut Scan,
    turns: &[Turn],
    agreed: &mut Agreed,
) -> anyhow::Result<()> {
    for turn in turns {
        let got = match turn.call {
            Call::Next(limit) => Answer::Next(browse.next(limit)),
            Call::Report => Answer::Report(browse.report()),
        };
        agreed.hold(got, scan.answer(turn.call))?;
    }
    Ok(())
}

impl Source {
    fn drawn_limit(&mut self, scan: &Scan) -> u64 {
        let far = scan.distance_at(self.chance.place(scan.picks()));
        match self.chance.below(6) {
            0 => 0,
            1 => far,
            2 => far.saturating_sub(1),
            3 => far / 2,
            4 => far.saturating_add(self.chance.below(1000)),
            _ => u64::MAX,
        }
    }

    fn drawn_turn(&mut self, scan: &Scan) -> Turn {
        let hand = if self.chance.once_in(2) {
            Hand::Day
        } else {
            Hand::Evening
        };
        let call = if self.chance.once_in(5) {
            Call::Report
        } else {
            Call::Next(self.drawn_limit(scan))
        };
        Turn { hand, call }
    }

    fn drawn_turns(&mut self, scan: &Scan) -> Result<Vec<Turn>, AllocError> {
        let mut turns = Vec::new(self.heap);
        for _ in 0..self.chance.below(40) {
            turns.push(self.drawn_turn(scan))?;
        }
        Ok(turns)
    }

    // As many unlimited turns as there are picks, and some to spare.
    fn all_the_rest(&mut self, scan: &Scan) -> Result<Vec<Turn>, AllocError> {
        let unlimited = |hand: Hand| Turn {
            hand,
            call: Call::Next(u64::MAX),
        };
        let mut turns = vec![in self.heap; unlimited(Hand::Day); scan.picks()]?;
        for _ in 0..3 {
            turns.push(unlimited(Hand::Evening))?;
            turns.push(self.drawn_turn(scan))?;
        }
        turns.push(Turn {
            hand: Hand::Day,
            call: Call::Report,
        })?;
        Ok(turns)
    }

    // A box that the book holds, or any of the field where the node drawn has none.
    fn held_box<B: Book>(&mut self, book: &B) -> Extent {
        let node = self.chance.below(u64::from(book.node_count()));
        match book.place(u16::try_from(node).unwrap_or(0), 0) {
            Some(entry) => Extent::from(&entry.bounds),
            None => self.shape.field.draw(&mut self.chance),
        }
    }

    // Near the book, at one of its boxes, or anywhere.
    fn drawn_query<B: Book>(&mut self, book: &B) -> anyhow::Result<Bounds> {
        let extent = match self.chance.below(3) {
            0 => Field::WHOLE.draw(&mut self.chance),
            1 => self
                .held_box(book)
                .loosened(&mut self.chance, self.shape.field.step),
            _ => self.shape.field.draw(&mut self.chance),
        };
        Bounds::try_from(extent).map_err(|_| anyhow!("a drawn query is refused"))
    }

    // A browse is large: once inlined, its room on the stack stays taken in each caller.
    #[inline(never)]
    fn compare_one<B: Book + Drop>(
        &mut self,
        book: B,
        choice: Choice,
        agreed: &mut Agreed,
    ) -> anyhow::Result<B> {
        let query = self.drawn_query(&book)?;
        let mut scan = Scan::of(self.heap, &book, choice, &query)?;
        let mut browse = Browse::open(book, choice, query);
        let turns = self.drawn_turns(&scan)?;
        take_turns(self.heap, &mut browse, &mut scan, &turns, agreed)?;
        let turns = self.drawn_turns(&scan)?;
        take_singly(&mut browse, &mut scan, &turns, agreed)?;
        let turns = self.all_the_rest(&scan)?;
        take_turns(self.heap, &mut browse, &mut scan, &turns, agreed)?;
        agreed.browses = agreed.browses.saturating_add(1);
        let (book, _) = browse.close();
        Ok(book)
    }

    /// Checks a book, and browses it by each measure. The book comes back.
    pub(crate) fn compare<B: Book + Drop>(
        &mut self,
        mut book: B,
        agreed: &mut Agreed,
    ) -> anyhow::Result<B> {
        check(&book).map_err(|_| anyhow!("a drawn book is not accepted"))?;
        for choice in [Choice::Euclidean, Choice::Manhattan, Choice::Chessboard] {
            book = self.compare_one(book, choice, agreed)?;
        }
        agreed.books = agreed.books.saturating_add(1);
        Ok(book)
    }
}
