//! Boxes moved along the axes.

ghost use Rattle.std.specs.Prelude.{◌≡◌};
ghost use Rattle.geometry.specs.Moved.{moved_span, moved_bounds};

use crate::bounds::{Bounds, Point, Span};

impl Span {
    /// This span moved by an amount, where its ends stay in range.
    pub fn moved(&self, by: i32) -> Option<Span>
        ensures { result ≡ moved_span self.now by }
    {
        let low = self.low.checked_add(by)?;
        let high = self.high.checked_add(by)?;
        Span::new(low, high)
    }
}

impl Bounds {
    /// This box moved by three amounts, one an axis, where its ends stay in range.
    pub fn moved(&self, by: Point) -> Option<Bounds>
        ensures { result ≡ moved_bounds self.now by }
    {
        Some(Bounds {
            easting: self.easting.moved(by.easting)?,
            northing: self.northing.moved(by.northing)?,
            level: self.level.moved(by.level)?,
        })
    }
}
