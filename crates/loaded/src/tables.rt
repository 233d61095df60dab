//! The tables of a book, each filled from the records of a file.

ghost use Rattle.std.specs.Prelude.{◌≡◌, ◌≤◌, length, vec_capacity};
ghost use Rattle.std.specs.Fn.{FnReturnsAt};
ghost use Rattle.std.specs.List.{AllZip};

/// Fills the table with what is read of each of these records, in their order, and with nothing else.
// Not inlined: among the values of a caller the loop would keep parts of each item in memory.
#[inline(never)]
pub(crate) fn fill<R, T: Drop, F: Fn(&R) -> T>(table: &mut Vec<T>, records: &[R], read: F)
    requires callable { F.IsAlwaysCallable read }
    requires fits { length records.now ≤ vec_capacity table.old }
    ensures items { AllZip (λ r t. FnReturnsAt F.Fn read r t) records.now table.new.items }
    ensures room { vec_capacity table.new ≡ vec_capacity table.old }
{
    table.clear();
    // `extend` may ask for memory, and so can fail; here there is room.
    for record in records {
        table.push_reserved(read(record));
    }
}
