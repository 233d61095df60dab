//! Printing a level.

ghost use Rattle.std.specs.Prelude.{Some};
ghost use Rattle.level.specs.Write.{level_text};

use crate::level::Level;
use crate::text::{ROOM, level_text};
use std::fmt;

/// So many hundredths of a foot, in range or not, to be printed as a level is.
#[derive(Clone, Copy)]
pub struct Hundredths(pub i32);

impl fmt::Display for Hundredths {
    ghost output = { λ level. Some (level_text level.0) };

    fn fmt<W: fmt::Write>(&self, f: &mut fmt::Formatter<W>) -> fmt::Result {
        let mut room = [0; ROOM];
        let text = level_text(self.0, &mut room);
        f.write_str(str::from_utf8(text).unwrap())
    }
}

impl fmt::Display for Level {
    ghost output = { λ level. Some (level_text level.hundredths) };

    fn fmt<W: fmt::Write>(&self, f: &mut fmt::Formatter<W>) -> fmt::Result {
        Hundredths(self.hundredths).fmt(f)
    }
}
