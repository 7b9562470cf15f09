// Rectangles of ground: a corner, the centre, and the rectangle widened to hold a point.
ghost use Rattle.std.specs.Prelude.{◌≡◌};
ghost use Rattle.ground.specs.Rectangles.{south_west, halfway as Rectangles·halfway, centre_of, widened as Rectangles·widened};

use crate::{Lat, Lon, Point, Rectangle};
use angles::{greater, lesser};

// The south-west corner of a rectangle.
pub fn south_west(r: Rectangle) -> Point
    ensures { result ≡ south_west r }
{
    Point {
        lat: r.south,
        lon: r.west,
    }
}

// Halfway between two angles.
fn halfway(a: u32, b: u32) -> u32
    ensures { result ≡ Rectangles·halfway a b }
{
    ((a as u64 + b as u64) / 2) as u32
}

// The centre of a rectangle, for all numbers.
pub fn centre(r: Rectangle) -> Point
    ensures { result ≡ centre_of r }
{
    Point {
        lat: Lat(halfway(r.south.0, r.north.0)),
        lon: Lon(halfway(r.west.0, r.east.0)),
    }
}

// A rectangle widened to hold a point.
pub fn widened(r: Rectangle, p: Point) -> Rectangle
    ensures { result ≡ Rectangles·widened r p }
{
    Rectangle {
        west: Lon(lesser(r.west.0, p.lon.0)),
        east: Lon(greater(r.east.0, p.lon.0)),
        south: Lat(lesser(r.south.0, p.lat.0)),
        north: Lat(greater(r.north.0, p.lat.0)),
    }
}
