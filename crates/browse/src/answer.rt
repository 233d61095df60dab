//! What a browse answers.

ghost use Rattle.std.specs.Prelude.{◌≡◌};
ghost use Rattle.browse.specs.Browse.{row};
ghost use Rattle.browse.specs.Desk.{thing_of};

use crate::waiting::Waiting;
use refusal::hands::TreeFault;

/// A pick that is told: how far it is, and its top, which is the high end of level of its box.
#[derive(Clone, Copy, PartialEq, Eq, Debug)]
pub struct Row {
    pub pick: u16,
    pub distance: u64,
    pub top: i32,
}

impl From<Waiting> for Row {
    ghost from_gives = { λ pick told. told ≡ row (thing_of pick) };

    fn from(pick: Waiting) -> Row {
        Row {
            pick: pick.number,
            distance: pick.distance,
            top: pick.top,
        }
    }
}

/// What `next` finds: the row that is told, if there is one, and how many nodes are opened so far.
#[derive(Clone, Copy, PartialEq, Eq, Debug)]
pub struct Found {
    pub row: Option<Row>,
    pub opened: u16,
}

/// How many rows were told and how many nodes opened.
#[derive(Clone, Copy, PartialEq, Eq, Debug)]
pub struct Counts {
    pub told: u16,
    pub opened: u16,
}

/// What one turn is answered.
#[derive(Clone, Copy, PartialEq, Eq, Debug)]
pub enum Answer {
    Next(Result<Found, TreeFault>),
    Report(Counts),
}
