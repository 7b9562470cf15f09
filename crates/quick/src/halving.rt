// The search for the first inside cell, by level, then west side, then south side, by halving ground by
// latitude, then by longitude, in turn. What is found is handed down and comes back, so that only what would
// come before it is looked for; and halves that cannot hold a wanted cell are passed over. Document 01 names
// two functions that call each other. What goes along is in no struct: the room is lent anew, and the half,
// what is left and what is found are others at each call, so that one would be plainer at none.
ghost use Rattle.std.specs.Prelude.{◌-◌, ◌/◌, max, ◌≡◌};
ghost use Rattle.boundary.specs.Listed.{boundary_of};
ghost use Rattle.quick.specs.Half.{Same};
ghost use Rattle.quick.specs.First.{First, settled_at};
ghost use Rattle.quick.specs.Descent.{ByLat, ByLon};

use crate::half::{Half, Sought};
use crate::halves::{east_half, north_half, south_half, starting_at, west_half};
use crate::kept::sorted;
use crate::passing::{Tested, test};
use ground::{Cell, Lon, Rectangle};

// Whether no cell from a west side on, of a level or a finer one that is sought, comes before what is found:
// of the same level only one further west does.
pub(crate) fn settled(found: Option<Cell>, west: Lon, level: u32, sought: Sought) -> bool
    ensures { result ≡ settled_at found west (max level sought.coarsest) sought.finest }
{
    let least = level.max(sought.coarsest);
    let Some(c) = found else {
        return sought.finest < least;
    };
    if west.0 < c.west.0 {
        return c.level < least;
    }
    c.level <= least
}

// Halves by latitude, and goes on by longitude. The half's edges are sorted here, after one has met it, and
// not for each of its parts.
#[cycle(by_lat_by_lon)]
pub(crate) fn by_lat(
    numbers: &[u32],
    room: &mut [u32],
    half: Half,
    sought: Sought,
    left: u32,
    found: Option<Cell>,
) -> Option<Cell>
    requires { ByLat (boundary_of numbers.now) room.old half sought left found }
    ensures first { First (boundary_of numbers.now) (sought.finest - left / 2) sought.finest half.ground found result }
    ensures same { Same half.to room.old room.new }
{
    let Rectangle { west, south, .. } = half.ground;
    let level = sought.finest - left / 2;
    if settled(found, west, level, sought) {
        return found;
    }
    let said = test(numbers, room, half, sought);
    if let Tested::Inside = said {
        return Some(Cell { level, west, south });
    }
    let Tested::Met(place) = said else {
        return found;
    };
    if left == 0 {
        return found;
    }
    let own = sorted(numbers, room, half, place, left);
    let at = ground::lat_split(level + 1, own.ground);
    if at.0 == own.ground.north.0 {
        return by_lon(numbers, room, own, sought, left - 1, found);
    }
    let first = by_lon(numbers, room, south_half(own, at), sought, left - 1, found);
    by_lon(numbers, room, north_half(own, at), sought, left - 1, first)
}

// Halves by longitude, and goes on by latitude. Where the half is inside, so is the cell of the next level
// in its south-west corner.
#[cycle(by_lat_by_lon)]
fn by_lon(
    numbers: &[u32],
    room: &mut [u32],
    half: Half,
    sought: Sought,
    left: u32,
    found: Option<Cell>,
) -> Option<Cell>
    requires { ByLon (boundary_of numbers.now) room.old half sought left found }
    ensures first { First (boundary_of numbers.now) (sought.finest - left / 2) sought.finest half.ground found result }
    ensures same { Same half.to room.old room.new }
{
    let Rectangle { west, south, .. } = half.ground;
    let level = sought.finest - left / 2;
    if settled(found, west, level, sought) {
        return found;
    }
    let said = test(numbers, room, half, sought);
    if let Tested::Inside = said {
        return Some(Cell { level, west, south });
    }
    let Tested::Met(place) = said else {
        return found;
    };
    let own = starting_at(half, place);
    let at = ground::lon_split(level, own.ground);
    if at.0 == own.ground.east.0 {
        return by_lat(numbers, room, own, sought, left - 1, found);
    }
    let first = by_lat(numbers, room, west_half(own, at), sought, left - 1, found);
    by_lat(numbers, room, east_half(own, at), sought, left - 1, first)
}
