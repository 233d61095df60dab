//! The kinds of picks.

ghost use Rattle.std.specs.Prelude.{◌≡◌, Some};
ghost use Rattle.book.specs.Kinds.{number_of, kind_numbered, words};

use std::fmt;

/// What a pick marks in the well, with its number in files and on the console.
#[derive(Clone, Copy, PartialEq, Eq, Debug)]
pub enum Kind {
    CasingTop = 1,
    Collar = 2,
    Perforation = 3,
    Marker = 4,
    FluidLevel = 5,
}

impl Kind {
    /// The kind as it is written on paper.
    pub fn words(self) -> &'static str
        ensures { result.now ≡ words self }
    {
        match self {
            Kind::CasingTop => "casing top",
            Kind::Collar => "collar",
            Kind::Perforation => "perforation",
            Kind::Marker => "marker",
            Kind::FluidLevel => "fluid level",
        }
    }
}

/// A number that no kind has.
#[derive(Clone, Copy, PartialEq, Eq, Debug)]
pub struct UnknownKind(pub u8);

impl From<Kind> for u8 {
    ghost from_gives = { λ kind number. number ≡ number_of kind };

    fn from(kind: Kind) -> u8 {
        kind as u8
    }
}

impl TryFrom<u8> for Kind {
    type Error = UnknownKind;

    ghost try_from_gives = { λ number kind. kind ≡ kind_numbered number };

    fn try_from(number: u8) -> Result<Kind, UnknownKind> {
        match number {
            1 => Ok(Kind::CasingTop),
            2 => Ok(Kind::Collar),
            3 => Ok(Kind::Perforation),
            4 => Ok(Kind::Marker),
            5 => Ok(Kind::FluidLevel),
            _ => Err(UnknownKind(number)),
        }
    }
}

impl fmt::Display for Kind {
    ghost output = { λ kind. Some (words kind) };

    fn fmt<W: fmt::Write>(&self, f: &mut fmt::Formatter<W>) -> fmt::Result {
        f.write_str(self.words())
    }
}
