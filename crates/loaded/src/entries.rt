//! The entry records of a file.

ghost use Rattle.std.specs.Prelude.{◌≡◌, [], true, slice_index_or};
ghost use Rattle.loaded.specs.Reading.{long_at};
ghost use Rattle.loaded.specs.Decode.{place_from};
ghost use Rattle.loaded.specs.Tables.{target_fits};

use crate::limits::ENTRY;
use book::place::Entry;
use geometry::bounds::{Bounds, Point};

fn read_point(coordinates: [[u8; 4]; 3]) -> Point
    ensures easting { result.easting ≡ long_at (slice_index_or coordinates 0 []) 0 }
    ensures northing { result.northing ≡ long_at (slice_index_or coordinates 1 []) 0 }
    ensures level { result.level ≡ long_at (slice_index_or coordinates 2 []) 0 }
{
    let [easting, northing, level] = coordinates;
    Point {
        easting: i32::from_le_bytes(easting),
        northing: i32::from_le_bytes(northing),
        level: i32::from_le_bytes(level),
    }
}

/// The entry of this record, or a spoilt place where its ends make no box.
pub(crate) fn read_place(bytes: &[u8; ENTRY]) -> Option<Entry>
    ensures place { result ≡ place_from bytes.now }
    ensures fits { target_fits result ≡ true }
{
    let (coordinates, target) = bytes.as_chunks();
    let (points, _) = coordinates.as_chunks();
    let bounds = Bounds::between(read_point(points[0]), read_point(points[1]))?;
    Some(Entry {
        bounds,
        target: u16::from_le_bytes([target[0], target[1]]),
    })
}
