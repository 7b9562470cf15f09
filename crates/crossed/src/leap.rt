// The leap: the next later edge whose extents are not apart from those of an edge, by rows where there are
// rooms for them.
ghost use Rattle.std.specs.Prelude.{◌+◌, ◌*◌, ◌/◌, ◌≤◌, ◌<◌, max, ◌≡◌, length, get_or};
ghost use Rattle.edge.specs.Edge.{edge};
ghost use Rattle.boundary.specs.Listed.{edge_from};
ghost use Rattle.pair.specs.Pair.{overlap};
ghost use Rattle.crossed.specs.Rows.{rows_of, RowsTo};
ghost use Rattle.crossed.specs.NearRows.{NearRow, Rooms};
ghost use Rattle.crossed.specs.Leaps.{Leapt};

use crate::meeting::{corner, end_of, place_after};
use crate::rows::{ROW, row_apart, row_end};
use ground::Point;

// Whether the latitudes of an edge overlap those of the edge from a place.
fn lats_overlap(numbers: &[u32], a: Point, b: Point, j: usize) -> bool
    requires { j < length numbers.now / 2 }
    ensures { result ≡ overlap a.lat.0 b.lat.0 (edge_from numbers.now j).start.lat.0 (edge_from numbers.now j).end.lat.0 }
{
    let after = place_after(numbers.len() / 2, j);
    pair::overlap(a.lat.0, b.lat.0, numbers[2 * j], numbers[2 * after])
}

// Whether the longitudes do; latitude and longitude are never mixed.
fn lons_overlap(numbers: &[u32], a: Point, b: Point, j: usize) -> bool
    requires { j < length numbers.now / 2 }
    ensures { result ≡ overlap a.lon.0 b.lon.0 (edge_from numbers.now j).start.lon.0 (edge_from numbers.now j).end.lon.0 }
{
    let after = place_after(numbers.len() / 2, j);
    pair::overlap(a.lon.0, b.lon.0, numbers[2 * j + 1], numbers[2 * after + 1])
}

// The first of the edges from one place to another whose extents are not apart from those of an edge.
#[tactic(auto, using(crate::specs::Leaps::skipped_again), unfolding(pair::specs::Pair::overlapping))]
fn scan(numbers: &[u32], a: Point, b: Point, from: usize, to: usize) -> Option<usize>
    requires { to ≤ length numbers.now / 2 }
    ensures { Leapt numbers.now (edge a b) from to result }
{
    for j in from..to {
        if lats_overlap(numbers, a, b, j) && lons_overlap(numbers, a, b, j) {
            return Some(j);
        }
    }
    None
}

// The same where both places lie in one row, of which all are passed over if its extents are apart.
#[tactic(auto, using(crate::specs::Leaps::skipped_row))]
fn scan_row(
    numbers: &[u32],
    extents: &[u32],
    a: Point,
    b: Point,
    from: usize,
    to: usize,
) -> Option<usize>
    requires to_in_bounds { to ≤ length numbers.now / 2 }
    requires to_bound { to ≤ 8 * (from / 8) + 8 }
    requires from_in_bounds { from / 8 < length extents.now / 4 }
    requires rows_to { RowsTo numbers.now extents.now (rows_of numbers.now) }
    ensures { Leapt numbers.now (edge a b) from to result }
{
    if row_apart(extents, a, b, from / ROW) {
        return None;
    }
    scan(numbers, a, b, from, to)
}

// Where the first row starts that is near, from a place on; the place itself where its own row is.
pub(crate) fn ahead(near: &[usize], from: usize) -> usize
    ensures { result ≡ max from (get_or near.now (from / 8) 0) }
{
    if let Some(start) = near.get(from / ROW) {
        from.max(*start)
    } else {
        from
    }
}

// The first edge from a place on whose extents are not apart from those of the edge from place i, row by row.
#[tactic(auto, using(crate::specs::Leaps::skipped_on, crate::specs::Leaps::skipped_ahead))]
fn leap_rows(
    numbers: &[u32],
    extents: &[u32],
    near: &[usize],
    i: usize,
    from: usize,
) -> Option<usize>
    requires i_in_bounds { i < length numbers.now / 2 }
    requires i_lt_from { i < from }
    requires numbers_in_bounds { rows_of numbers.now ≤ length extents.now / 4 }
    requires rows_to { RowsTo numbers.now extents.now (rows_of numbers.now) }
    requires near_row { NearRow numbers.now near.now (i / 8) }
    ensures { Leapt numbers.now (edge_from numbers.now i) from (length numbers.now / 2) result }
{
    let count = numbers.len() / 2;
    let a = corner(numbers, i);
    let b = end_of(numbers, i);
    let mut j = ahead(near, from);
    while j < count {
        let to = row_end(count, j / ROW);
        if let Some(found) = scan_row(numbers, extents, a, b, j, to) {
            return Some(found);
        }
        j = ahead(near, to);
    }
    None
}

// The first edge from a place on whose extents are not apart from those of the edge from place i.
pub(crate) fn leap(
    numbers: &[u32],
    extents: &[u32],
    near: &[usize],
    i: usize,
    from: usize,
) -> Option<usize>
    requires i_in_bounds { i < length numbers.now / 2 }
    requires i_lt_from { i < from }
    requires rooms { Rooms numbers.now extents.now (length near.now) }
    requires near_row { NearRow numbers.now near.now (i / 8) }
    ensures { Leapt numbers.now (edge_from numbers.now i) from (length numbers.now / 2) result }
{
    if near.is_empty() {
        let count = numbers.len() / 2;
        return scan(numbers, corner(numbers, i), end_of(numbers, i), from, count);
    }
    leap_rows(numbers, extents, near, i, from)
}
