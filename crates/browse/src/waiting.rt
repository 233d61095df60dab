//! What waits in a browse.

ghost use Rattle.std.specs.Prelude.{◌≡◌};
ghost use Rattle.browse.specs.Sooner.{sooner, top_number};
ghost use Rattle.browse.specs.Waitings.{sooner_total};

use queue::order::Ordered;

/// Whether a waiting thing is to be opened or told. At equal distance nodes come first, since a nearer pick may be below.
#[derive(Clone, Copy, PartialEq, Eq, PartialOrd, Ord, Debug, Default)]
pub enum Class {
    #[default]
    Node,
    Pick,
}

/// A node or a pick that waits. `arrival` counts those that came before it. The default stands where nothing waits yet.
#[derive(Clone, Copy, Default)]
pub struct Waiting {
    pub distance: u64,
    pub class: Class,
    pub number: u16,
    pub arrival: u32,
    pub top: i32,
}

// Tops are ordered by this number and not by themselves, as `sooner` is defined; the definition stays.
fn top_number(top: i32) -> u64
    ensures { result ≡ top_number top }
{
    if top >= 0 {
        top as u64 * 2
    } else {
        (-1 - top) as u64 * 2 + 1
    }
}

/// The sooner of two is opened or told first.
impl Ordered for Waiting {
    ghost before = { sooner };

    ghost total = { sooner_total };

    fn precedes(&self, other: &Waiting) -> bool {
        // One tuple took 1.14 times as long, over the bar of 1.05, `then_with` 1.47 times (bench/FIGURES.md).
        if self.distance != other.distance {
            return self.distance < other.distance;
        }
        if self.class != other.class {
            return self.class < other.class;
        }
        if self.number != other.number {
            return self.number < other.number;
        }
        if self.arrival != other.arrival {
            return self.arrival < other.arrival;
        }
        top_number(self.top) < top_number(other.top)
    }
}
