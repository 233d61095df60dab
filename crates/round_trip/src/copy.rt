//! A book through its file form and back: nothing is lost on the way, in either direction.

ghost use Rattle.std.specs.Prelude.{◌≡◌, length};
ghost use Rattle.refusal.specs.Told.{answered, told};
ghost use Rattle.file.specs.WriteOut.{write_out_answer, write_out_leaves};
ghost use Rattle.loaded.specs.Decode.{decode};
ghost use Rattle.loaded.specs.Load.{held_after};
ghost use Rattle.loaded.specs.Loaded.{loaded_model};
ghost use Rattle.round_trip.specs.Copy.{book_copied, file_copy_answer, file_copy_leaves};
ghost use Rattle.round_trip.specs.RoundTrip.{WrittenLoads, LoadedWrites};

use book::book::Book;
use file::write_out::write_out;
use loaded::loaded::Loaded;
use refusal::refusal::Refusal;

/// Copies a book of any make into the one held, by writing it out into `room` and loading what was written. Answers the
/// length of its file. A refusal leaves all as it stood.
pub fn copy_book<B: Book>(book: &B, room: &mut [u8], held: &mut Loaded) -> Result<usize, Refusal>
    ensures answer { answered told result ≡ write_out_answer (B.Book.model book.now) (length room.old) }
    ensures bytes { room.new ≡ write_out_leaves (B.Book.model book.now) room.old }
    ensures book { loaded_model held.new ≡ book_copied (B.Book.model book.now) (length room.old) (loaded_model held.old) }
    ensures loads { WrittenLoads }
{
    let length = write_out(book, room)?;
    held.load(&room[..length])?;
    Ok(length)
}

/// Loads a file and writes its book out again, which gives the same bytes. A file that loads stays loaded, even where a
/// spoilt place or too small a room keeps it from being written.
pub fn copy_file(bytes: &[u8], held: &mut Loaded, room: &mut [u8]) -> Result<usize, Refusal>
    ensures answer { answered told result ≡ file_copy_answer bytes.now (length room.old) }
    ensures bytes { room.new ≡ file_copy_leaves bytes.now room.old }
    ensures book { loaded_model held.new ≡ held_after (decode bytes.now) (loaded_model held.old) }
    ensures writes { LoadedWrites }
{
    held.load(bytes)?;
    write_out(held, room)
}
