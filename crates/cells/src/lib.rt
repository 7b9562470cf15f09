// A cell's sides on the ground, cuts included.
#![tactic(auto)]

ghost use Rattle.std.specs.Prelude.{◌≡◌};
ghost use Rattle.ground.specs.Cells.{low_side, high_side, is_side, sides_found};

use ground::{COARSEST, Cell, FINEST, LAT_END, LON_END, Lat, Lon, Rectangle, afresh, size};

// The low side of the cell of a level that an angle lies in, for all numbers.
pub fn low_side(level: u32, a: u32) -> u32
    ensures { result ≡ low_side level a }
{
    let whole = afresh(level);
    let part = size(level);
    if part == 0 {
        return a / whole * whole;
    }
    a / whole * whole + a % whole / part * part
}

// The high side of the cell whose low side is an angle, for all numbers: it may pass 32 bits.
pub fn high_side(level: u32, a: u32) -> u64
    ensures { result ≡ high_side level a }
{
    let whole = afresh(level);
    let full = a as u64 + size(level) as u64;
    let cut = (a / whole * whole) as u64 + whole as u64;
    full.min(cut)
}

// Whether an angle is the low side of a cell that ends at or before an end of the range.
fn is_side(level: u32, a: u32, end: u32) -> bool
    ensures { result ≡ is_side level a end }
{
    low_side(level, a) == a && high_side(level, a) <= end as u64
}

// The sides of a cell, for all numbers.
pub fn sides_found(c: Cell) -> Option<Rectangle>
    ensures { result ≡ sides_found c }
{
    let level = c.level;
    let west = c.west;
    let south = c.south;
    if level < COARSEST {
        return None;
    }
    if FINEST < level {
        return None;
    }
    if !is_side(level, west.0, LON_END) {
        return None;
    }
    if !is_side(level, south.0, LAT_END) {
        return None;
    }
    Some(Rectangle {
        west,
        east: Lon(high_side(level, west.0) as u32),
        south,
        north: Lat(high_side(level, south.0) as u32),
    })
}
