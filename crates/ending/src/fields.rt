// The fields of a unit: the reference of its cell, its scale and its spans; where a span is above 31, all
// four one level coarser.
ghost use Rattle.std.specs.Prelude.{◌≡◌, ◌≤◌};
ghost use Rattle.angles.specs.Angles.{distance};
ghost use Rattle.ground.specs.Levels.{smallest_size, IsLevel};
ghost use Rattle.ground.specs.Cells.{sides_of, location_cell, corner_of};
ghost use Rattle.unit.specs.Unit.{span_cells, fields_at, above31, fields_of};

use crate::scale::{coarser, scale_of};
use code::Fields;
use ground::{Cell, LOCATION_LEVEL, LOCATION_SIZE, Lat, Lon, Point, Rectangle};

// The distance of two angles of one direction, divided by a size and rounded up, plus 1.
fn span_cells(s: u32, from: u32, to: u32) -> u32
    requires { smallest_size ≤ s }
    ensures { result ≡ span_cells s (distance from to) }
{
    let d = angles::apart(from, to);
    ((d as u64 + (s as u64 - 1)) / s as u64 + 1) as u32
}

// The south-west corner of the location cell of a cell with these sides.
#[tactic(auto, using(crate::specs::FieldsLaws::reference_own, crate::specs::FieldsLaws::reference_centre))]
fn reference(c: Cell, sides: Rectangle) -> Point
    requires { sides ≡ sides_of c }
    ensures { result ≡ corner_of (location_cell c) }
{
    let west = c.west;
    let south = c.south;
    if c.level == LOCATION_LEVEL {
        return Point {
            lat: south,
            lon: west,
        };
    }
    let p = ground::centre(sides);
    Point {
        lat: Lat(angles::less(p.lat.0, LOCATION_SIZE)),
        lon: Lon(angles::less(p.lon.0, LOCATION_SIZE)),
    }
}

// The fields of a unit at a level, by its extremes, its number and its reference.
#[tactic(auto, using(crate::specs::FieldsLaws::cells_size, crate::specs::FieldsLaws::fields_made))]
fn fields_at(level: u32, r: Rectangle, number: u32, p: Point) -> Fields
    requires { IsLevel level }
    ensures { result ≡ fields_at level r number p }
{
    let s = ground::size(level);
    Fields {
        reference: p,
        scale: level,
        east: span_cells(s, p.lon.0, r.east.0),
        west: span_cells(s, p.lon.0, r.west.0),
        south: span_cells(s, p.lat.0, r.south.0),
        north: span_cells(s, p.lat.0, r.north.0),
        number,
    }
}

// Whether any of the four spans is above 31.
fn above_31(f: Fields) -> bool
    ensures { result ≡ above31 f }
{
    31 < f.east || 31 < f.west || 31 < f.south || 31 < f.north
}

// The fields of a unit by its extremes, its number and a cell with these sides.
#[tactic(auto, using(crate::specs::FieldsLaws::first_level, crate::specs::FieldsLaws::next_level), unfolding(unit::specs::Unit::fields_of, unit::specs::Unit::level_of))]
pub(crate) fn fields(r: Rectangle, number: u32, c: Cell, sides: Rectangle) -> Fields
    requires { sides ≡ sides_of c }
    ensures { result ≡ fields_of r number c }
{
    let p = reference(c, sides);
    let level = scale_of(extents::span(r));
    let f = fields_at(level, r, number, p);
    if above_31(f) {
        return fields_at(coarser(level), r, number, p);
    }
    f
}
