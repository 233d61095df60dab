//! What the tape shows of a line.

ghost use Rattle.std.specs.Prelude.{◌≡◌, Some};
ghost use Rattle.level.specs.Level.{measured, measures};
ghost use Rattle.tape.specs.Reading.{shown, from_ground, shows, reading_text};

use geometry::bounds::{Bounds, Point};
use geometry::chessboard::Chessboard;
use geometry::euclidean::Euclidean;
use geometry::manhattan::Manhattan;
use geometry::measure::Measure;
use level::level::Level;
use line::point::typed_point;
use refusal::hands::TypingFault;
use std::fmt;

#[derive(Clone, Copy)]
pub struct Reading {
    pub level: Level,
    pub euclidean: u64,
    pub manhattan: u64,
    pub chessboard: u64,
}

impl fmt::Display for Reading {
    ghost output = { λ reading. Some (reading_text reading) };

    fn fmt<W: fmt::Write>(&self, f: &mut fmt::Formatter<W>) -> fmt::Result {
        let Reading {
            level,
            euclidean,
            manhattan,
            chessboard,
        } = *self;
        write!(
            f,
            "level {level} euclidean {euclidean} manhattan {manhattan} chessboard {chessboard}"
        )
    }
}

// The highest level of a box; of a point, its level.
fn top(bounds: &Bounds) -> Result<Level, TypingFault>
    ensures { measured result ≡ measures bounds.now.level.high }
{
    Level::try_from(bounds.level.high)
}

#[tactic(auto, unfolding(crate::specs::Reading::from_ground))]
fn from_ground(ground: &Bounds, point: &Bounds) -> Result<Reading, TypingFault>
    ensures { shown result ≡ from_ground ground.now point.now }
{
    Ok(Reading {
        level: top(point)?,
        euclidean: Euclidean.distance(ground, point),
        manhattan: Manhattan.distance(ground, point),
        chessboard: Chessboard.distance(ground, point),
    })
}

/// The level of the point that a line names, and how far the point lies from ground.
pub fn read_line(line: &[u8]) -> Result<Reading, TypingFault>
    ensures { shown result ≡ shows line.now }
{
    let point = Bounds::at(typed_point(line)?)?;
    let ground = Bounds::at(Point::ORIGIN)?;
    from_ground(&ground, &point)
}
