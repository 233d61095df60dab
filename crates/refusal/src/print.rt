//! Printing a refusal, as the console does.

ghost use Rattle.std.specs.Prelude.{Some};
ghost use Rattle.refusal.specs.Told.{told};
ghost use Rattle.refusal.specs.Line.{refused_line};

use crate::refusal::Refusal;
use std::fmt;

impl fmt::Display for Refusal {
    ghost output = { λ refusal. Some (refused_line (told refusal)) };

    fn fmt<W: fmt::Write>(&self, f: &mut fmt::Formatter<W>) -> fmt::Result {
        let number = self.number();
        write!(f, "refused {number}")?;
        if let Some(node) = self.node() {
            write!(f, " node {node}")?;
        }
        if let Some(place) = self.place() {
            write!(f, " entry {place}")?;
        }
        Ok(())
    }
}
