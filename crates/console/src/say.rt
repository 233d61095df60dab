//! What the console says: one line for each answer.

ghost use Rattle.std.specs.Prelude.{Some};
ghost use Rattle.console.specs.Say.{said_line};

use book::kind::Kind;
use browse::answer::{Counts, Found, Row};
use level::level::show::Hundredths;
use refusal::refusal::Refusal;
use std::fmt;

/// An answer, to be printed as a line.
#[derive(Clone, Copy, PartialEq, Eq, Debug)]
pub enum Said {
    /// The book was accepted and names so many picks.
    Accepted { picks: u16 },
    Opened,
    /// What `next` found, and the kind of the pick that it told.
    Next { found: Found, kind: Option<Kind> },
    Report(Counts),
    Closed,
    Refused(Refusal),
}

impl fmt::Display for Said {
    ghost output = { λ said. Some (said_line said) };

    fn fmt<W: fmt::Write>(&self, f: &mut fmt::Formatter<W>) -> fmt::Result {
        match *self {
            Said::Accepted { picks } => write!(f, "accepted {picks} picks"),
            Said::Opened => f.write_str("open"),
            Said::Next {
                found: Found { row: None, opened },
                ..
            } => write!(f, "none opened {opened}"),
            Said::Next {
                found: Found {
                    row: Some(row),
                    opened,
                },
                kind,
            } => {
                let Row {
                    pick,
                    distance,
                    top,
                } = row;
                let number = kind.map_or(0, u8::from);
                let top = Hundredths(top);
                write!(
                    f,
                    "pick {pick} at {distance} kind {number} top {top} opened {opened}"
                )
            }
            Said::Report(Counts { told, opened }) => write!(f, "told {told} opened {opened}"),
            Said::Closed => f.write_str("closed"),
            Said::Refused(refusal) => refusal.fmt(f),
        }
    }
}
