//! What the program holds: the book, or a browse of it.

ghost use Rattle.std.specs.Prelude.{◌≡◌};
ghost use Rattle.console.specs.State.{line_answer, line_after};
ghost use Rattle.pickbook.specs.Held.{not_now, Asks, ActsOnBrowse, Acts, AnsweredBy};
ghost use Rattle.pickbook.specs.declared.held.Held.TheVariants.{Browse as Browsed};

use book::book::Book;
use browse::browse::Browse;
use console::command::Command;
use console::say::Said;
use console::state::{Act, Console};
use geometry::choice::Choice;
use loaded::loaded::Loaded;
use refusal::hands::TypingFault;
use refusal::refusal::Refusal;

#[derive(Drop)]
pub enum Held {
    Book(Loaded),
    Browse(Browse<Loaded, Choice>),
}

/// What is held after an act, and what is said of it.
#[derive(Drop)]
pub struct Shown {
    pub held: Held,
    pub said: Said,
}

// The console tests the state first, so what is held always fits; it is refused all the same.
fn not_now(held: Held) -> Shown
    ensures { (result.held ≡ held) × (result.said ≡ not_now) }
{
    Shown {
        held,
        said: Said::Refused(Refusal::Typing(TypingFault::State)),
    }
}

fn next(browse: &mut Browse<Loaded, Choice>, limit: u64) -> Said
    ensures { Asks browse.old limit browse.new result }
{
    match browse.next(limit) {
        Ok(found) => {
            let kind = found.row.and_then(|row| browse.book().kind(row.pick));
            Said::Next { found, kind }
        }
        Err(fault) => Said::Refused(Refusal::Tree(fault)),
    }
}

fn act_on_browse(mut browse: Browse<Loaded, Choice>, act: Act) -> Shown
    ensures { ActsOnBrowse browse act result }
{
    match act {
        Command::Next { limit } => Shown {
            said: next(&mut browse, limit),
            held: Held::Browse(browse),
        },
        Command::Report => Shown {
            said: Said::Report(browse.report()),
            held: Held::Browse(browse),
        },
        Command::Close => {
            let (book, _) = browse.close();
            Shown {
                held: Held::Book(book),
                said: Said::Closed,
            }
        }
        Command::Open { .. } => not_now(Held::Browse(browse)),
    }
}

impl Held {
    /// Does what the console asks for.
    pub(crate) fn act(self, act: Act) -> Shown
        ensures { Acts self act result }
    {
        match self {
            Held::Browse(browse) => act_on_browse(browse, act),
            Held::Book(book) => match act {
                Command::Open { measure, query } => Shown {
                    held: Held::Browse(Browse::open(book, measure, query)),
                    said: Said::Opened,
                },
                _ => not_now(Held::Book(book)),
            },
        }
    }

    /// Answers a line that was typed at this console.
    pub(crate) fn answer(self, console: &mut Console, line: &[u8]) -> Shown
        ensures state { console.new.state ≡ line_after console.old.state line.now }
        ensures shown { AnsweredBy (line_answer console.old.state line.now) self result }
    {
        match console.read(line) {
            Ok(act) => self.act(act),
            Err(fault) => Shown {
                held: self,
                said: Said::Refused(Refusal::from(fault)),
            },
        }
    }
}
