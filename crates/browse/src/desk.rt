//! The table of what waits, and the counts.

ghost use Rattle.std.specs.Prelude.{◌≡◌, ◌+◌, ◌*◌, ◌≤◌, true, length, take};
ghost use Rattle.queue.specs.Heap.{Heaped, queued};
ghost use Rattle.browse.specs.Sooner.{sooner, came_before};

use crate::waiting::Waiting;

mod moves;

// A form of the project: a plain table of records and a count, lent to the queue; nothing on a heap.
/// What waits, as a heap in the first `used` places of the table, and the counts. A node brings at most 16 entries and
/// at most 512 nodes are opened, so no count runs over.
#[derive(Drop)]
pub(crate) struct Desk {
    table: [Waiting; 2048],
    used: usize,
    opened: u16,
    told: u16,
    arrivals: u32,
    ghost whole: { length table ≡ 2048 },
    ghost within: { used ≤ 2048 },
    ghost heaped: { Heaped sooner (take used table) },
    ghost few: { opened ≤ 512 },
    ghost grown: { arrivals ≤ 16 * opened + 1 },
    ghost counted: { told + used ≤ arrivals },
    // whatever comes next came after all that wait
    ghost fresh: { came_before arrivals (queued sooner used table) ≡ true },
}
