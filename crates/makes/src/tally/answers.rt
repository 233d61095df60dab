//! What a tally answers.

ghost use Rattle.std.specs.Prelude.{◌≡◌, ◌-◌, ◌<◌, ◌≤◌, take, drop};
ghost use Rattle.makes.specs.Smallest.{smallest};
ghost use Rattle.makes.specs.Tally.{collar_boxes, tallied};
ghost use Rattle.makes.specs.TalliesLemmas.{shape_tally};

use crate::sixteens::{Covered, Sixteens};
use crate::tally::Tally;
use book::book::Book;
use book::kind::Kind;
use book::place::Entry;
use geometry::bounds::Bounds;

impl Tally {
    fn tree(&self) -> Sixteens
        ensures { result.count ≡ self.now.joints.count }
    {
        Sixteens {
            count: self.joints.count,
        }
    }

    // The box around the collars from `start` to before `end`: it reaches from the lowest to the highest.
    fn run(&self, start: u16, end: u16) -> Option<Bounds>
        requires some { start < end }
        requires inside { end ≤ self.now.joints.count }
        ensures { result ≡ smallest (take (end - start) (drop start (collar_boxes self.now.top self.now.joints.count self.now.joints.length))) }
    {
        let highest = self.joints.collar(&self.top, start);
        let lowest = self.joints.collar(&self.top, end - 1);
        Bounds::between(lowest, highest)
    }
}

impl Book for Tally {
    ghost model = { λ t. tallied t.top t.joints.count t.joints.length };

    ghost shape = { λ b. shape_tally b };

    fn node_count(&self) -> u16 {
        self.tree().node_count()
    }

    fn pick_limit(&self) -> u16 {
        self.joints.count
    }

    fn level(&self, node: u16) -> u8 {
        self.tree().level(node)
    }

    fn place_count(&self, node: u16) -> u8 {
        self.tree().place_count(node)
    }

    fn place(&self, node: u16, index: u8) -> Option<Entry> {
        let Covered { target, start, end } = self.tree().covered(node, index)?;
        let bounds = self.run(start, end)?;
        Some(Entry { bounds, target })
    }

    fn kind(&self, pick: u16) -> Option<Kind> {
        (pick < self.joints.count).then_some(Kind::Collar)
    }
}
