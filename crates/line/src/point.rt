//! A point that is typed as three levels.

ghost use Rattle.std.specs.Prelude.{◌≡◌};
ghost use Rattle.refusal.specs.Told.{answered, typing_told};
ghost use Rattle.line.specs.Point.{point_read, point_typed};

use crate::words::{first_word, is_word};
use geometry::bounds::Point;
use level::read::read_level;
use refusal::hands::TypingFault;

/// The point with these three levels.
fn read_point(easting: &[u8], northing: &[u8], level: &[u8]) -> Result<Point, TypingFault>
    ensures { answered typing_told result ≡ point_read easting.now northing.now level.now }
{
    Ok(Point {
        easting: read_level(easting)?,
        northing: read_level(northing)?,
        level: read_level(level)?,
    })
}

/// The point that a line of three level texts names: easting, northing, level. The words are counted before any of them
/// is read.
#[tactic(auto, unfolding(crate::specs::Point::point_typed))]
pub fn typed_point(line: &[u8]) -> Result<Point, TypingFault>
    ensures { answered typing_told result ≡ point_typed line.now }
{
    let (easting, rest) = first_word(line);
    let (northing, level) = first_word(rest);
    if !(is_word(easting) && is_word(northing) && is_word(level)) {
        return Err(TypingFault::Command);
    }
    read_point(easting, northing, level)
}
