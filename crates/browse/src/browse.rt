//! A browse: a book, a measure and a query, and what waits.

ghost use Rattle.std.specs.Prelude.{◌≡◌, [], ◌∷◌, map, IfOk, MatchResult};
ghost use Rattle.search.specs.declared.turn.Hand.{Hand as HandOf};
ghost use Rattle.search.specs.declared.turn.Call.TheVariants.{Next, Report};
ghost use Rattle.browse.specs.Browse.{opening, next_of, report_of, turned, replies_from, stands_after, next_reply, counts_reply, reply};
ghost use Rattle.browse.specs.Desk.{standing};
ghost use Rattle.browse.specs.Law.{Lawful, TellsNearest, taken};

use crate::answer::{Answer, Counts, Found};
use crate::desk::Desk;
use crate::view::View;
use book::book::Book;
use geometry::bounds::Bounds;
use geometry::measure::Measure;
use refusal::hands::TreeFault;
use search::turn::{Call, Turn};
use std::alloc::{AllocError, Global};

/// A browse of a book, nearest pick first. Only `take_turns` allocates: a vector of answers.
#[derive(Drop)]
pub struct Browse<B, M> {
    view: View<B, M>,
    desk: Desk,
}

impl<B: Book, M: Measure> Browse<B, M> {
    /// Only the root waits.
    pub fn open(book: B, measure: M, query: Bounds) -> Browse<B, M>
        ensures parts { (result.view.book ≡ book) × (result.view.measure ≡ measure) × (result.view.query ≡ query) }
        ensures opening { standing result.desk ≡ opening (B.Book.model book) }
    {
        let root = book.node_count() - 1;
        let view = View {
            book,
            measure,
            query,
        };
        let desk = Desk::new(root);
        Browse { view, desk }
    }

    /// The nearest pick not yet told that is no farther than the limit, or the fault of a node that is broken, which
    /// then still waits.
    pub fn next(&mut self, limit: u64) -> Result<Found, TreeFault>
        ensures parts { self.new.view ≡ self.old.view }
        ensures follows { next_of (B.Book.model self.old.view.book) (M.Measure.distance self.old.view.measure self.old.view.query) limit (standing self.old.desk) ≡ (next_reply result, standing self.new.desk) }
        ensures law { (hand : HandOf) → Lawful (B.Book.model self.old.view.book) (M.Measure.distance self.old.view.measure self.old.view.query) (standing self.old.desk) (taken hand (Next limit) ∷ []) (next_reply result ∷ []) }
        ensures nearest { TellsNearest (B.Book.model self.old.view.book) (M.Measure.distance self.old.view.measure self.old.view.query) (standing self.old.desk) limit (next_reply result) }
    {
        self.view.follow(&mut self.desk, limit)
    }

    /// How many rows were told and how many nodes opened.
    pub fn report(&self) -> Counts
        ensures follows { counts_reply result ≡ report_of (standing self.now.desk) }
        ensures law { (hand : HandOf) → Lawful (B.Book.model self.now.view.book) (M.Measure.distance self.now.view.measure self.now.view.query) (standing self.now.desk) (taken hand Report ∷ []) (counts_reply result ∷ []) }
    {
        Counts {
            told: self.desk.told(),
            opened: self.desk.opened(),
        }
    }

    /// The book that is browsed.
    pub fn book(&self) -> &B
        ensures { result.now ≡ self.now.view.book }
    {
        &self.view.book
    }

    /// The book and the measure come back as they were.
    pub fn close(self) -> (B, M)
        ensures { (result.0 ≡ self.view.book) × (result.1 ≡ self.view.measure) }
    {
        let View { book, measure, .. } = self.view;
        (book, measure)
    }

    /// One turn, whichever hand it is.
    pub(crate) fn take_turn(&mut self, turn: Turn) -> Answer
        ensures parts { self.new.view ≡ self.old.view }
        ensures follows { turned (B.Book.model self.old.view.book) (M.Measure.distance self.old.view.measure self.old.view.query) (standing self.old.desk) turn ≡ (reply result, standing self.new.desk) }
    {
        match turn.call {
            Call::Next(limit) => Answer::Next(self.next(limit)),
            Call::Report => Answer::Report(self.report()),
        }
    }

    /// These turns, one after another, and their answers. Where there is no memory for them none is taken.
    pub fn take_turns(&mut self, heap: Global, turns: &[Turn]) -> Result<Vec<Answer>, AllocError>
        ensures parts { self.new.view ≡ self.old.view }
        ensures follows { MatchResult result (λ v. (map reply v.items ≡ replies_from (B.Book.model self.old.view.book) (M.Measure.distance self.old.view.measure self.old.view.query) (standing self.old.desk) turns.now) × (standing self.new.desk ≡ stands_after (B.Book.model self.old.view.book) (M.Measure.distance self.old.view.measure self.old.view.query) (standing self.old.desk) turns.now)) (λ _. standing self.new.desk ≡ standing self.old.desk) }
        ensures law { IfOk result (λ v. Lawful (B.Book.model self.old.view.book) (M.Measure.distance self.old.view.measure self.old.view.query) (standing self.old.desk) turns.now (map reply v.items)) }
    {
        let mut answers = Vec::with_capacity(heap, turns.len())?;
        for turn in turns {
            answers.push_reserved(self.take_turn(*turn));
        }
        Ok(answers)
    }
}
