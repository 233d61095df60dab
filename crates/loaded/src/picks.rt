//! The pick records of a file, each the number of a kind.

ghost use Rattle.std.specs.Prelude.{◌≡◌, ◌≤◌, length, vec_capacity};
ghost use Rattle.loaded.specs.Decode.{all_kinds, kinds_from};

use book::kind::Kind;

pub(crate) fn all_kinds(numbers: &[u8]) -> bool
    ensures { result ≡ all_kinds numbers.now }
{
    // With no way out of the loop several numbers are tested at a time.
    numbers
        .iter()
        .fold(true, |all, number| all & Kind::try_from(*number).is_ok())
}

/// Fills the table with the kinds of these numbers alone.
pub(crate) fn fill_kinds(table: &mut Vec<Kind>, numbers: &[u8])
    requires { length numbers.now ≤ vec_capacity table.old }
    ensures items { table.new.items ≡ kinds_from numbers.now }
    ensures room { vec_capacity table.new ≡ vec_capacity table.old }
{
    table.clear();
    // Not `fill`, which takes one item for each record: a number with no kind would have to be some kind there.
    for number in numbers {
        if let Ok(kind) = Kind::try_from(*number) {
            table.push_reserved(kind);
        }
    }
}
