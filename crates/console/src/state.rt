//! The three states of the console, and what a command does in each.

ghost use Rattle.std.specs.Prelude.{◌≡◌};
ghost use Rattle.refusal.specs.Told.{answered, typing_told};
ghost use Rattle.console.specs.State.{answer_in, state_after, state_at, line_answer, line_after};

use crate::command::{Command, Typed, typed_command};
use geometry::bounds::Bounds;
use refusal::hands::TypingFault;

#[derive(Clone, Copy, PartialEq, Eq, Debug)]
pub enum State {
    NoBook,
    Ready,
    Open,
}

/// What is to be done with the book or the browse: a command whose query is a box.
pub type Act = Command<Bounds>;

#[derive(Clone, Copy)]
pub struct Console {
    pub state: State,
}

impl Console {
    /// An accepted book makes the console ready, a refused one leaves no book.
    pub fn new(accepted: bool) -> Console
        ensures { result.state ≡ state_at accepted }
    {
        let state = if accepted {
            State::Ready
        } else {
            State::NoBook
        };
        Console { state }
    }

    /// Takes a line, or refuses it: first as a command, then by the state, then for what it asks.
    pub fn read(&mut self, line: &[u8]) -> Result<Act, TypingFault>
        ensures answer { answered typing_told result ≡ line_answer self.old.state line.now }
        ensures state { self.new.state ≡ line_after self.old.state line.now }
    {
        let command = typed_command(line)?;
        self.take(command)
    }

    /// Takes a command, or refuses it: first by the state, then for what it asks.
    pub fn take(&mut self, command: Typed) -> Result<Act, TypingFault>
        ensures answer { answered typing_told result ≡ answer_in self.old.state command }
        ensures state { self.new.state ≡ state_after self.old.state command }
    {
        match (self.state, command) {
            (State::Ready, Command::Open { measure, query }) => {
                let query = Bounds::at(query.ok_or(TypingFault::NotALevel)?)?;
                self.state = State::Open;
                Ok(Command::Open { measure, query })
            }
            (State::Open, Command::Next { limit }) => Ok(Command::Next { limit }),
            (State::Open, Command::Report) => Ok(Command::Report),
            (State::Open, Command::Close) => {
                self.state = State::Ready;
                Ok(Command::Close)
            }
            (_, _) => Err(TypingFault::State),
        }
    }
}
