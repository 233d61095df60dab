//! The commands: open, next, report, close.

ghost use Rattle.std.specs.Prelude.{◌≡◌};
ghost use Rattle.refusal.specs.Told.{answered, typing_told};
ghost use Rattle.console.specs.Command.{bare, next_typed, pointed, open_typed, command_of};
ghost use Rattle.line.specs.Point.{point_typed};

use crate::limit::typed_limit;
use geometry::bounds::Point;
use geometry::choice::Choice;
use line::point::typed_point;
use line::words::first_word;
use refusal::hands::TypingFault;

/// The longest line that is read as a command.
const MOST_BYTES: usize = 80;

/// What can be asked, with a query of type `Q`.
#[derive(Clone, Copy, PartialEq, Eq, Debug)]
pub enum Command<Q> {
    Open { measure: Choice, query: Q },
    Next { limit: u64 },
    Report,
    Close,
}

/// A command as it is typed. Its query is none where one of the three texts is no level: whether that matters depends on
/// the state.
pub type Typed = Command<Option<Point>>;

/// The command that a line is.
#[tactic(auto, unfolding(crate::specs::Command::command_of))]
pub fn typed_command(line: &[u8]) -> Result<Typed, TypingFault>
    ensures { answered typing_told result ≡ command_of line.now }
{
    let (word, rest) = first_word(line);
    if line.len() > MOST_BYTES || word.len() != 1 {
        return Err(TypingFault::Command);
    }
    match char::from(word[0]) {
        'O' => typed_open(rest),
        'N' => typed_next(rest),
        'R' => alone(Command::Report, rest),
        'Z' => alone(Command::Close, rest),
        _ => Err(TypingFault::Command),
    }
}

// A command that takes nothing.
fn alone(command: Typed, rest: &[u8]) -> Result<Typed, TypingFault>
    ensures { answered typing_told result ≡ bare command rest.now }
{
    if rest.is_empty() {
        Ok(command)
    } else {
        Err(TypingFault::Command)
    }
}

fn typed_next(rest: &[u8]) -> Result<Typed, TypingFault>
    ensures { answered typing_told result ≡ next_typed rest.now }
{
    let limit = typed_limit(rest).ok_or(TypingFault::Command)?;
    Ok(Command::Next { limit })
}

#[tactic(auto, unfolding(crate::specs::Command::open_typed))]
fn typed_open(rest: &[u8]) -> Result<Typed, TypingFault>
    ensures { answered typing_told result ≡ open_typed rest.now }
{
    let (name, levels) = first_word(rest);
    if name.len() != 1 {
        return Err(TypingFault::Command);
    }
    match char::from(name[0]) {
        'E' => open_by(Choice::Euclidean, levels),
        'M' => open_by(Choice::Manhattan, levels),
        'C' => open_by(Choice::Chessboard, levels),
        _ => Err(TypingFault::Command),
    }
}

fn open_by(measure: Choice, levels: &[u8]) -> Result<Typed, TypingFault>
    ensures { answered typing_told result ≡ pointed measure (point_typed levels.now) }
{
    let query = match typed_point(levels) {
        Err(TypingFault::NotALevel) => None,
        point => Some(point?),
    };
    Ok(Command::Open { measure, query })
}
