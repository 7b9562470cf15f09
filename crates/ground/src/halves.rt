// Where ground that follows the cells is halved, and the least width of a level's cells.
ghost use Rattle.std.specs.Prelude.{◌≡◌};
ghost use Rattle.ground.specs.Halves.{narrowest as Halves·narrowest, split_at, lat_split, lon_split};

use crate::cells::afresh;
use crate::{Lat, Lon, Rectangle, size};

// The least width of a level's cells, cuts included; 0 for what is no level.
pub fn narrowest(level: u32) -> u32
    ensures { result ≡ Halves·narrowest level }
{
    let part = size(level);
    if part == 0 {
        return 0;
    }
    let cut = afresh(level) % part;
    if cut == 0 { part } else { cut }
}

// Where a length of ground is halved into cells of a level, for all numbers; its high end where it is
// not split.
fn split(level: u32, low: u32, high: u32) -> u32
    ensures { result ≡ split_at level low high }
{
    low.saturating_add(size(level)).min(high)
}

// The latitude at which ground is halved into cells of a level; its north side where it is not. It and
// the longitude are two functions: latitude and longitude are never mixed.
pub fn lat_split(level: u32, r: Rectangle) -> Lat
    ensures { result ≡ lat_split level r }
{
    Lat(split(level, r.south.0, r.north.0))
}

// The longitude at which ground is halved into cells of a level; its east side where it is not.
pub fn lon_split(level: u32, r: Rectangle) -> Lon
    ensures { result ≡ lon_split level r }
{
    Lon(split(level, r.west.0, r.east.0))
}
