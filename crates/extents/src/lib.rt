// The extents of a unit, and its first corner above the range, over the caller's numbers.
#![tactic(auto)]

ghost use Rattle.std.specs.Prelude.{◌≡◌};
ghost use Rattle.facts.specs.Places.{first_place};
ghost use Rattle.corners.specs.Corners.{corners_of};
ghost use Rattle.unit.specs.Extents.{extremes_of, lat_extent, lon_extent, span_of};
ghost use Rattle.unit.specs.Unit.{above_range};

use corners::corner;
use ground::{Lat, Lon, Point, Rectangle};

// The unit's own extremes; all sides 0 where it has no corner.
pub fn extremes(numbers: &[u32]) -> Rectangle
    ensures { result ≡ extremes_of (corners_of numbers.now) }
{
    let count = numbers.len() / 2;
    if count == 0 {
        return Rectangle {
            west: Lon(0),
            east: Lon(0),
            south: Lat(0),
            north: Lat(0),
        };
    }
    let first = corner(numbers, 0);
    let lat = first.lat;
    let lon = first.lon;
    let mut r = Rectangle {
        west: lon,
        east: lon,
        south: lat,
        north: lat,
    };
    for i in 1..count {
        r = ground::widened(r, corner(numbers, i));
    }
    r
}

// The extent in latitude. It and that in longitude are two functions: the two are never mixed.
fn lat_extent(r: Rectangle) -> u32
    ensures { result ≡ lat_extent r }
{
    angles::less(r.north.0, r.south.0)
}

// The extent in longitude.
fn lon_extent(r: Rectangle) -> u32
    ensures { result ≡ lon_extent r }
{
    angles::less(r.east.0, r.west.0)
}

// The larger of the two extents.
pub fn span(r: Rectangle) -> u32
    ensures { result ≡ span_of r }
{
    lat_extent(r).max(lon_extent(r))
}

// Whether a point has a coordinate above its range.
fn above_range(p: Point) -> bool
    ensures { result ≡ above_range p }
{
    ground::LAT_END < p.lat.0 || ground::LON_END < p.lon.0
}

// The place of the first corner with a coordinate above its range, or the count of corners.
pub fn first_above(numbers: &[u32]) -> usize
    ensures { result ≡ first_place above_range (corners_of numbers.now) }
{
    let count = numbers.len() / 2;
    for i in 0..count {
        if above_range(corner(numbers, i)) {
            return i;
        }
    }
    count
}
