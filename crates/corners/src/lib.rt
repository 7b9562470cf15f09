// The corners of a boundary, over the caller's numbers as they come: latitude, longitude in turn.
#![tactic(auto)]

ghost use Rattle.std.specs.Prelude.{◌≡◌, get_or};
ghost use Rattle.corners.specs.Corners.{corner_at};

use ground::{Lat, Lon, Point};

// A number of the list, and 0 past its end.
fn number(numbers: &[u32], k: usize) -> u32
    ensures { result ≡ get_or numbers.now k 0 }
{
    numbers.get(k).copied().unwrap_or(0)
}

// The corner at a place of the list; a coordinate that the list does not have is 0.
pub fn corner(numbers: &[u32], i: usize) -> Point
    ensures { result ≡ corner_at numbers.now i }
{
    if i < numbers.len() / 2 {
        return Point {
            lat: Lat(numbers[2 * i]),
            lon: Lon(numbers[2 * i + 1]),
        };
    }
    if numbers.len() <= i {
        return Point {
            lat: Lat(0),
            lon: Lon(0),
        };
    }
    Point {
        lat: Lat(number(numbers, 2 * i)),
        lon: Lon(number(numbers, 2 * i + 1)),
    }
}
