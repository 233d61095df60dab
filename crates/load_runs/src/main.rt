//! Loads damaged files and compares each answer with a plain decoder: every truncation of the sample file, and every
//! byte of it changed to 0, to 255 and to itself plus one.

#![tactic(auto)]

ghost use Rattle.std.specs.Prelude.{◌≡◌, ◌<◌, length};

mod plain;

use crate::plain::decoded;
use anyhow::anyhow;
use loaded::loaded::Loaded;
use refusal::refusal::Refusal;
use std::fs;

/// The book that is loaded, again and again, and how many files were refused and how many loaded.
#[derive(Drop)]
struct Tried {
    book: Loaded,
    refused: u64,
    loaded: u64,
}

impl Tried {
    fn add(&mut self, bytes: &[u8]) -> anyhow::Result<()> {
        match (self.book.load(bytes), decoded(bytes)) {
            (Ok(()), Ok(records)) if records.are_of(&self.book) => {
                self.loaded = self.loaded.saturating_add(1);
                Ok(())
            }
            (Ok(()), _) => Err(anyhow!("a file that loads is read otherwise")),
            (Err(fault), Err(wrong)) if Refusal::from(fault).number() == wrong as u8 => {
                self.refused = self.refused.saturating_add(1);
                Ok(())
            }
            (Err(_), _) => Err(anyhow!("a file is refused by another number")),
        }
    }

    fn truncations(&mut self, bytes: &[u8]) -> anyhow::Result<()> {
        for length in 0..bytes.len() {
            self.add(&bytes[0..length])?;
        }
        Ok(())
    }

    // The byte at this place changed, each way, and then as it was.
    fn changes_at(&mut self, bytes: &mut [u8], at: usize) -> anyhow::Result<()>
        requires { at < length bytes.old }
        ensures { length bytes.new ≡ length bytes.old }
    {
        let was = bytes[at];
        for new in [0, 255, was.wrapping_add(1)] {
            bytes[at] = new;
            self.add(bytes)?;
        }
        bytes[at] = was;
        Ok(())
    }

    fn changes(&mut self, bytes: &mut [u8]) -> anyhow::Result<()> {
        for at in 0..bytes.len() {
            self.changes_at(bytes, at)?;
        }
        Ok(())
    }
}

fn main(rt: HostRuntime) -> anyhow::Result<()> {
    let mut bytes = fs::read(&rt, "pick.book")?;
    let mut tried = Tried {
        book: Loaded::empty(rt.alloc())?,
        refused: 0,
        loaded: 0,
    };
    tried.add(&bytes)?;
    tried.truncations(&bytes)?;
    tried.changes(&mut bytes)?;
    let Tried {
        refused,
        loaded,
        ..
    } = tried;
    println!(rt; "{refused} files refused and {loaded} loaded, each as the plain decoder says")?;
    Ok(())
}
