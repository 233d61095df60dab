//! The joints of a string, and where their collars hang.

ghost use Rattle.std.specs.Prelude.{◌≡◌, ◌<◌, true, false, MatchOption};
ghost use Rattle.geometry.specs.Bounds.{point_in_range};
ghost use Rattle.makes.specs.Tally.{sized, collar_at, hangs as hangs_from};

use crate::tally::Joints;
use geometry::bounds::Point;

impl Joints {
    /// So many joints of this length, where a string may have them.
    pub(crate) fn new(count: u16, length: u32) -> Option<Joints>
        ensures { MatchOption result (sized count length ≡ false) (λ made. (made.count ≡ count) × (made.length ≡ length)) }
    {
        // Tried: `then(|| Joints { count, length })` does not close; with `sized` as its clause it does, and is no plainer.
        if (1..=1000).contains(&count) && (1..=5000).contains(&length) {
            Some(Joints { count, length })
        } else {
            None
        }
    }

    /// The collar at the upper end of a joint, counted from 0, where the string hangs from `top`.
    pub(crate) fn collar(&self, top: &Point, joint: u16) -> Point
        requires top { point_in_range top.now ≡ true }
        requires joint { joint < self.now.count }
        ensures { result ≡ collar_at top.now self.now.length joint }
    {
        let down = joint as u32 * self.length;
        Point {
            level: top.level - down as i32,
            ..*top
        }
    }

    /// Whether the top and the lowest collar are in range.
    pub(crate) fn hangs(&self, top: &Point) -> bool
        ensures { result ≡ hangs_from top.now self.now.count self.now.length }
    {
        top.in_range() && self.collar(top, self.count - 1).in_range()
    }
}
