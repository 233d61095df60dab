//! What is made of the file: the book is loaded and checked, and the console starts by that.

ghost use Rattle.std.specs.Prelude.{◌≡◌, [], MatchResult};
ghost use Rattle.refusal.specs.Told.{answered, told};
ghost use Rattle.console.specs.Say.{said_line};
ghost use Rattle.loaded.specs.Decode.{decode};
ghost use Rattle.loaded.specs.Load.{held_after};
ghost use Rattle.loaded.specs.Loaded.{loaded_model};
ghost use Rattle.pickbook.specs.Begin.{judged, first_line, first_state};

use book_check::scan::check;
use console::say::Said;
use console::state::Console;
use loaded::loaded::Loaded;
use refusal::refusal::Refusal;
use std::alloc::Global;
use std::io;

/// The console at first, and what it says.
#[derive(Clone, Copy)]
pub struct Begun {
    pub console: Console,
    pub said: Said,
}

/// The bytes of a file that was read. One that is missing or cannot be read counts as one of no bytes.
pub(crate) fn bytes_of(heap: Global, read: io::Result<Vec<u8>>) -> Vec<u8>
    ensures { MatchResult read (λ bytes. result.items ≡ bytes.items) (λ _. result.items ≡ []) }
{
    read.unwrap_or_else(|_| Vec::new(heap))
}

/// Loads and checks the book in these bytes.
pub(crate) fn judge(book: &mut Loaded, bytes: &[u8]) -> Result<u16, Refusal>
    ensures answer { answered told result ≡ judged (decode bytes.now) }
    ensures book { loaded_model book.new ≡ held_after (decode bytes.now) (loaded_model book.old) }
{
    book.load(bytes)?;
    Ok(check(book)?)
}

/// An accepted book makes the console ready.
pub(crate) fn begin(judged: Result<u16, Refusal>) -> Begun
    ensures state { result.console.state ≡ first_state (answered told judged) }
    ensures line { said_line result.said ≡ first_line (answered told judged) }
{
    match judged {
        Ok(picks) => Begun {
            console: Console::new(true),
            said: Said::Accepted { picks },
        },
        Err(refusal) => Begun {
            console: Console::new(false),
            said: Said::Refused(refusal),
        },
    }
}
