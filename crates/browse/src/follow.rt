//! What is done to answer `next`.

ghost use Rattle.std.specs.Prelude.{◌≡◌};
ghost use Rattle.browse.specs.Browse.{next_of, next_reply};
ghost use Rattle.browse.specs.Desk.{standing};

use crate::answer::{Found, Row};
use crate::desk::Desk;
use crate::view::View;
use crate::waiting::Class;
use book::book::Book;
use geometry::measure::Measure;
use refusal::hands::TreeFault;

impl<B: Book, M: Measure> View<B, M> {
    /// Opens what waits first while it is a node within the limit, then tells it if it is a pick within the limit.
    #[tactic(auto, using(crate::proofs::Nexts::next_none, crate::proofs::Nexts::next_pick))]
    pub(crate) fn follow(&self, desk: &mut Desk, limit: u64) -> Result<Found, TreeFault>
        ensures { next_of (B.Book.model self.now.book) (M.Measure.distance self.now.measure self.now.query) limit (standing desk.old) ≡ (next_reply result, standing desk.new) }
    {
        while let Some(first) = desk.first_within(limit) {
            match first.class {
                Class::Pick => {
                    desk.tell();
                    let row = Some(Row::from(first));
                    let opened = desk.opened();
                    return Ok(Found { row, opened });
                }
                Class::Node => {
                    let kids = self
                        .kids_to_open(desk, first)
                        .ok_or(TreeFault::Broken { node: first.number })?;
                    desk.open(&kids);
                }
            }
        }
        let opened = desk.opened();
        Ok(Found { row: None, opened })
    }
}
