// The side of a line, told by two sums of products. Nobody else multiplies.
#![tactic(auto)]

ghost use Rattle.std.specs.Prelude.{◌≡◌, ◌*◌, ◌<◌, ◌^◌};
ghost use Rattle.side.specs.Side.{left as Side·left, left_sum};

use ground::{Lat, Lon, Point};

// A longitude times a latitude, which 64 bits hold.
fn product(lon: Lon, lat: Lat) -> u128
    ensures value { result ≡ lon.0 * lat.0 }
    ensures small { result < 2 ^ 64 }
{
    lon.0 as u128 * lat.0 as u128
}

// What stands for left of the line from a to b, for all points: three products pass 64 bits, and fit 128.
fn left_sum(a: Point, b: Point, p: Point) -> u128
    ensures { result ≡ left_sum a b p }
{
    product(a.lon, b.lat) + product(b.lon, p.lat) + product(p.lon, a.lat)
}

// Whether a point lies strictly left of the line from a to b, for all points. What stands for right of
// the line is what stands for left of it turned round.
pub fn left(a: Point, b: Point, p: Point) -> bool
    ensures { result ≡ Side·left a b p }
{
    left_sum(b, a, p) < left_sum(a, b, p)
}
