// Rows: each eight edges one after the other, with their extents from the south-west corner to the
// north-east corner, and for a row the places where rows start whose extents are not apart from its own.
ghost use Rattle.std.specs.Prelude.{◌+◌, ◌*◌, ◌/◌, ◌≤◌, ◌<◌, min, max, ◌≡◌, ◌||◌, ltb, length, get_or};
ghost use Rattle.edge.specs.Edge.{edge};
ghost use Rattle.boundary.specs.Listed.{edge_in};
ghost use Rattle.crossed.specs.Rows.{lowest, highest, rows_of, row_apart, RowsTo};
ghost use Rattle.crossed.specs.NearRows.{Near, NearRow, StillNear, Rooms};

use crate::meeting::{corner, end_of};
use angles::{greater, lesser};
use boundary::put_edge;
use ground::{Lat, Lon, Point};

// How many edges a row has.
pub(crate) const ROW: usize = 8;

// How many rows there are.
fn row_count(numbers: &[u32]) -> usize
    ensures { result ≡ rows_of numbers.now }
{
    (numbers.len() / 2).div_ceil(ROW)
}

// The lesser latitude and the lesser longitude of two points. It and the next stay two: one function over
// `lesser` or `greater` as a closure would owe a clause that says what the closure answers.
fn low(a: Point, b: Point) -> Point
    ensures { result ≡ lowest a b }
{
    Point {
        lat: Lat(lesser(a.lat.0, b.lat.0)),
        lon: Lon(lesser(a.lon.0, b.lon.0)),
    }
}

// The greater latitude and the greater longitude.
fn high(a: Point, b: Point) -> Point
    ensures { result ≡ highest a b }
{
    Point {
        lat: Lat(greater(a.lat.0, b.lat.0)),
        lon: Lon(greater(a.lon.0, b.lon.0)),
    }
}

// Where a row ends: eight edges after its start, or with the last edge.
pub(crate) fn row_end(count: usize, row: usize) -> usize
    requires row_bound { 8 * row < count }
    requires count_bound { count < 9223372036854775808 }
    ensures { result ≡ min count (8 * row + 8) }
{
    count.min(ROW * row + ROW)
}

// Lists the extents of a row.
fn list_row(numbers: &[u32], extents: &mut [u32], row: usize)
    requires row_in_bounds { 8 * row < length numbers.now / 2 }
    requires row_in_bounds_2 { row < length extents.old / 4 }
    requires rows_to { RowsTo numbers.now extents.old row }
    ensures extents_len_unchanged { length extents.new ≡ length extents.old }
    ensures rows_to_2 { RowsTo numbers.now extents.new (row + 1) }
{
    let to = row_end(numbers.len() / 2, row);
    let mut south_west = corner(numbers, ROW * row);
    let mut north_east = corner(numbers, ROW * row);
    for i in ROW * row..to {
        south_west = low(south_west, end_of(numbers, i));
        north_east = high(north_east, end_of(numbers, i));
    }
    put_edge(extents, row, south_west, north_east);
}

// Lists the extents of each row.
pub(crate) fn list_rows(numbers: &[u32], extents: &mut [u32])
    requires { rows_of numbers.now ≤ length extents.old / 4 }
    ensures { RowsTo numbers.now extents.new (rows_of numbers.now) }
{
    for row in 0..row_count(numbers) {
        list_row(numbers, extents, row);
    }
}

// Whether the stretch from one number to another is apart from that between two numbers.
fn beside(a: u32, b: u32, from: u32, to: u32) -> bool
    ensures { result ≡ (ltb (max a b) from || ltb to (min a b)) }
{
    greater(a, b) < from || to < lesser(a, b)
}

// Whether the extents of an edge are apart from those of a row. The longitudes are read only where the
// latitudes do not tell.
pub(crate) fn row_apart(extents: &[u32], a: Point, b: Point, row: usize) -> bool
    requires { row < length extents.now / 4 }
    ensures { result ≡ row_apart (edge a b) (edge_in extents.now row) }
{
    let at = 4 * row;
    if beside(a.lat.0, b.lat.0, extents[at], extents[at + 2]) {
        return true;
    }
    beside(a.lon.0, b.lon.0, extents[at + 1], extents[at + 3])
}

// Tells for each row from its own on where the first starts, it or a later one, that is not apart from its
// own.
fn list_near(extents: &[u32], rows: usize, own: usize, near: &mut [usize])
    requires rows_in_bounds { rows ≤ length extents.now / 4 }
    requires rows_in_bounds_2 { rows < length near.old }
    requires own_le_rows { own ≤ rows }
    ensures near_len_unchanged { length near.new ≡ length near.old }
    ensures near { Near extents.now own rows near.new own }
{
    let mut first = ROW * rows;
    near[rows] = first;
    for row in (own..rows).rev() {
        if !row_apart(
            extents,
            corner(extents, 2 * own),
            corner(extents, 2 * own + 1),
            row,
        ) {
            first = ROW * row;
        }
        near[row] = first;
    }
}

// Tells what is near a row where it starts.
#[tactic(auto, using(crate::specs::NearRows::near_row, crate::specs::NearRows::near_none, crate::specs::NearRows::rooms_held))]
pub(crate) fn renew(numbers: &[u32], extents: &[u32], i: usize, near: &mut [usize])
    requires i_in_bounds { i < length numbers.now / 2 }
    requires rooms { Rooms numbers.now extents.now (length near.old) }
    requires still_near { StillNear numbers.now near.old i }
    ensures near_len_unchanged { length near.new ≡ length near.old }
    ensures near_row { NearRow numbers.now near.new (i / 8) }
{
    if i % ROW == 0 && 0 < near.len() {
        list_near(extents, row_count(numbers), i / ROW, near);
    }
}
