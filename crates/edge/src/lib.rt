// An edge beside a rectangle. Comparisons come first, products only where these leave it open.
#![tactic(auto)]

ghost use Rattle.std.specs.Prelude.{◌≡◌, not, ◌&&◌, ◌||◌, leb};
ghost use Rattle.ground.specs.Rectangles.{Ordered};
ghost use Rattle.side.specs.Side.{left as Side·left};
ghost use Rattle.edge.specs.Edge.{edge, no_length, beyond as Edge·beyond, all_left, misses as Edge·misses, strictly_between, strictly_within, end_within};
ghost use Rattle.edge.specs.Extreme.{extreme_lat, extreme_lon};

use ground::{Lat, Lon, Point, Rectangle};
use side::left;

// Whether the sides of a rectangle are in order.
fn in_order(r: Rectangle) -> bool
    ensures { result ≡ (leb r.west.0 r.east.0 && leb r.south.0 r.north.0) }
{
    r.west.0 <= r.east.0 && r.south.0 <= r.north.0
}

// Whether two numbers are both at most a third: the greater tells.
fn most(a: u32, b: u32, third: u32) -> bool
    ensures { result ≡ (leb a third && leb b third) }
{
    angles::greater(a, b) <= third
}

// Whether they are both at least a third: the lesser tells.
fn least(a: u32, b: u32, third: u32) -> bool
    ensures { result ≡ (leb third a && leb third b) }
{
    third <= angles::lesser(a, b)
}

// Whether both ends of an edge are beyond one side of a rectangle.
pub fn beyond(a: Point, b: Point, r: Rectangle) -> bool
    ensures { result ≡ Edge·beyond (edge a b) r }
{
    most(a.lon.0, b.lon.0, r.west.0)
        || least(a.lon.0, b.lon.0, r.east.0)
        || most(a.lat.0, b.lat.0, r.south.0)
        || least(a.lat.0, b.lat.0, r.north.0)
}

// The latitude of the corner that is furthest right of the line from a to b. It and the longitude are two
// functions: latitude and longitude are never mixed.
fn extreme_lat(a: Point, b: Point, r: Rectangle) -> Lat
    ensures { result ≡ extreme_lat a b r }
{
    if a.lon.0 <= b.lon.0 {
        return r.south;
    }
    r.north
}

// Its longitude.
fn extreme_lon(a: Point, b: Point, r: Rectangle) -> Lon
    ensures { result ≡ extreme_lon a b r }
{
    if a.lat.0 <= b.lat.0 {
        return r.east;
    }
    r.west
}

// Whether a point, by its latitude and longitude, lies right of the line from a to b.
fn right(a: Point, b: Point, lat: Lat, lon: Lon) -> bool
    ensures { result ≡ Side·left b a (record { lat = lat; lon = lon }) }
{
    left(b, a, Point { lat, lon })
}

// Whether the corners of a rectangle whose sides are in order lie all left of the line or on it: the
// one furthest right tells.
fn ordered_left(a: Point, b: Point, r: Rectangle) -> bool
    requires { Ordered r }
    ensures { result ≡ all_left a b r }
{
    !right(a, b, extreme_lat(a, b, r), extreme_lon(a, b, r))
}

// The same for any rectangle, corner by corner.
fn each_left(a: Point, b: Point, r: Rectangle) -> bool
    ensures { result ≡ all_left a b r }
{
    if right(a, b, r.south, r.west) {
        return false;
    }
    if right(a, b, r.south, r.east) {
        return false;
    }
    if right(a, b, r.north, r.west) {
        return false;
    }
    !right(a, b, r.north, r.east)
}

// Whether the corners of a rectangle lie all on one side of the line from a to b, or on it.
pub fn aside(a: Point, b: Point, r: Rectangle) -> bool
    ensures { result ≡ (all_left a b r || all_left b a r) }
{
    if in_order(r) {
        return ordered_left(a, b, r) || ordered_left(b, a, r);
    }
    each_left(a, b, r) || each_left(b, a, r)
}

// Whether a number is strictly between two others.
fn strictly_between(low: u32, n: u32, high: u32) -> bool
    ensures { result ≡ strictly_between low n high }
{
    low < n && n < high
}

// Whether a point lies strictly within a rectangle.
fn strictly_within(p: Point, r: Rectangle) -> bool
    ensures { result ≡ strictly_within r p }
{
    strictly_between(r.west.0, p.lon.0, r.east.0) && strictly_between(r.south.0, p.lat.0, r.north.0)
}

// Whether an edge has a length: its ends are two points.
pub fn has_length(a: Point, b: Point) -> bool
    ensures { result ≡ not (no_length (edge a b)) }
{
    a != b
}

// Whether an edge that has a length has an end strictly within a rectangle.
pub fn end_within(a: Point, b: Point, r: Rectangle) -> bool
    ensures { result ≡ end_within (edge a b) r }
{
    (strictly_within(a, r) || strictly_within(b, r)) && has_length(a, b)
}

// Whether an edge misses the open inside of a rectangle, for all points and rectangles. One that has a
// length and an end strictly within meets it, and needs no product.
pub fn misses(a: Point, b: Point, r: Rectangle) -> bool
    ensures { result ≡ Edge·misses (edge a b) r }
{
    if beyond(a, b, r) {
        return true;
    }
    if end_within(a, b, r) {
        return false;
    }
    aside(a, b, r)
}
