// The ground: angles in u (1/2048 arc second), points, rectangles, cells and their levels.
#![tactic(auto)]

mod cells;
mod halves;
mod rectangles;

ghost use Rattle.std.specs.Prelude.{◌≡◌};
ghost use Rattle.ground.specs.Levels.{size_of};

pub use cells::afresh;
pub use halves::{lat_split, lon_split, narrowest};
pub use rectangles::{centre, south_west, widened};

// A degree in u.
pub const DEGREE: u32 = 7372800;

// A minute in u.
pub const MINUTE: u32 = 122880;

// A second in u.
pub const SECOND: u32 = 2048;

// The ends of the ranges, which are included: 90° and 180°.
pub const LAT_END: u32 = 663552000;

pub const LON_END: u32 = 1327104000;

// The coarsest and the finest level.
pub const COARSEST: u32 = 9;

pub const FINEST: u32 = 27;

// The level whose size is a minute, the last that starts afresh at each degree.
const MINUTE_LEVEL: u32 = 15;

// The level of the location cell, and its size.
pub const LOCATION_LEVEL: u32 = 27;

pub const LOCATION_SIZE: u32 = 32;

// A latitude in u, north of the equator. It, a longitude, a point and a rectangle are laid out as in C,
// so that callers in other languages can have them.
#[repr(C)]
#[derive(Clone, Copy, PartialEq, Eq)]
pub struct Lat(pub u32);

// A longitude in u, east of the prime meridian.
#[repr(C)]
#[derive(Clone, Copy, PartialEq, Eq)]
pub struct Lon(pub u32);

// A point of the ground: a corner, a centre, a reference.
#[repr(C)]
#[derive(Clone, Copy, PartialEq, Eq)]
pub struct Point {
    pub lat: Lat,
    pub lon: Lon,
}

// A rectangle of ground by its four sides.
#[repr(C)]
#[derive(Clone, Copy)]
pub struct Rectangle {
    pub west: Lon,
    pub east: Lon,
    pub south: Lat,
    pub north: Lat,
}

// A cell by its level and its south-west corner.
#[derive(Clone, Copy)]
pub struct Cell {
    pub level: u32,
    pub west: Lon,
    pub south: Lat,
}

// The nominal size of a level's cells, and 0 for what is no level: a degree at the coarsest; then 64 minutes,
// halved once for each level, down to a minute; then 64 seconds, halved once for each.
pub fn size(level: u32) -> u32
    ensures { result ≡ size_of level }
{
    if FINEST < level {
        return 0;
    }
    if MINUTE_LEVEL < level {
        return (64 * SECOND) >> (level - MINUTE_LEVEL);
    }
    if COARSEST < level {
        return (64 * MINUTE) >> (level - COARSEST);
    }
    if level == COARSEST { DEGREE } else { 0 }
}
