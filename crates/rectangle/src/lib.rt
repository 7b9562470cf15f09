// Reading back: the rectangle of a code's fields, whatever they are.
#![tactic(auto)]

ghost use Rattle.std.specs.Prelude.{◌≡◌, ◌+◌, ◌-◌, ◌*◌, min};
ghost use Rattle.ground.specs.Levels.{size_of};
ghost use Rattle.code.specs.Code.{rectangle_of};

use code::Fields;
use ground::{Lat, Lon, Rectangle};

// The distance of a span: one cell less than it counts, of the scale's size.
fn span_distance(span: u32, scale: u32) -> u64
    ensures { result ≡ (span - 1) * size_of scale }
{
    span.saturating_sub(1) as u64 * ground::size(scale) as u64
}

// An angle less a distance, stopped at 0.
fn back(from: u32, by: u64) -> u32
    ensures { result ≡ from - by }
{
    (from as u64).saturating_sub(by) as u32
}

// An angle and a distance, stopped at the end.
fn ahead(from: u32, by: u64, end: u32) -> u32
    ensures { result ≡ min (from + by) end }
{
    (from as u64).saturating_add(by).min(end as u64) as u32
}

// The rectangle runs from the reference by W-1, E-1, S-1 and N-1 cells, and stops at 0, at 90° and
// at 180°.
#[tactic(auto, unfolding(code::specs::Code::rectangle_of))]
pub fn rectangle_of(f: Fields) -> Rectangle
    ensures { result ≡ rectangle_of f }
{
    let p = f.reference;
    Rectangle {
        west: Lon(back(p.lon.0, span_distance(f.west, f.scale))),
        east: Lon(ahead(p.lon.0, span_distance(f.east, f.scale), ground::LON_END)),
        south: Lat(back(p.lat.0, span_distance(f.south, f.scale))),
        north: Lat(ahead(p.lat.0, span_distance(f.north, f.scale), ground::LAT_END)),
    }
}
