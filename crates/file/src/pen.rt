//! A pen that writes over the caller's bytes, one piece after the other.

ghost use Rattle.std.specs.Prelude.{◌≡◌};
ghost use Rattle.file.specs.Encode.{le16, le32, point_bytes};
ghost use Rattle.file.specs.Pen.{HasRoom, wrote};

use geometry::bounds::Point;

/// The caller's bytes, and how many of them are written over. The next piece begins behind these.
// no test of room: each of the thirteen puts would answer a Result for a case that `write_out` has ruled out, no plainer
#[derive(Drop)]
pub(crate) struct Pen<'a> {
    page: &'a mut [u8],
    at: usize,
}

impl<'a> Pen<'a> {
    /// Begins at the first of the bytes.
    pub(crate) fn new(page: &'a mut [u8]) -> Pen<'a>
        ensures page { result.page.ghost_name ≡ page.entry.ghost_name }
        ensures bytes { result.page.now ≡ page.old }
        ensures at { result.at ≡ 0 }
    {
        Pen { page, at: 0 }
    }

    /// How many bytes are written.
    pub(crate) fn written(&self) -> usize
        ensures { result ≡ self.now.at }
    {
        self.at
    }

    pub(crate) fn put_bytes(&mut self, bytes: &[u8])
        requires { HasRoom self.old bytes.now }
        ensures { self.new ≡ wrote self.old bytes.now }
    {
        let end = self.at + bytes.len();
        self.page[self.at..end].copy_from_slice(bytes);
        self.at = end;
    }

    /// Puts a 16-bit number.
    #[tactic(auto, unfolding(crate::specs::Encode::bytes_of))]
    pub(crate) fn put_u16(&mut self, number: u16)
        requires { HasRoom self.old (le16 number) }
        ensures { self.new ≡ wrote self.old (le16 number) }
    {
        self.put_bytes(&number.to_le_bytes());
    }

    /// Puts a coordinate.
    #[tactic(auto, using(crate::proofs::Bytes::le32_is))]
    fn put_i32(&mut self, coordinate: i32)
        requires { HasRoom self.old (le32 coordinate) }
        ensures { self.new ≡ wrote self.old (le32 coordinate) }
    {
        self.put_bytes(&coordinate.to_le_bytes());
    }

    /// Puts the three coordinates of a point.
    #[tactic(auto, using(crate::proofs::Pens::room_third))]
    pub(crate) fn put_point(&mut self, point: Point)
        requires { HasRoom self.old (point_bytes point) }
        ensures { self.new ≡ wrote self.old (point_bytes point) }
    {
        self.put_i32(point.easting);
        self.put_i32(point.northing);
        self.put_i32(point.level);
    }
}
