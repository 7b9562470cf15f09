// The edges that are kept for a half, in a lent room: an edge that misses a half misses all in it, and may
// be left out on the way down. An edge stands there as in a list of edges.
ghost use Rattle.std.specs.Prelude.{◌+◌, ◌-◌, ◌*◌, ◌≤◌, ◌<◌, ◌≡◌, false, not, length};
ghost use Rattle.facts.specs.Tests.{differ};
ghost use Rattle.edge.specs.Edge.{edge, beyond, misses, turns};
ghost use Rattle.boundary.specs.Closed.{oddly};
ghost use Rattle.boundary.specs.Listed.{boundary_of, edge_in};
ghost use Rattle.quick.specs.Half.{kept_in, meeting, MetFirst, FoundFirst, Same, Sound};

use crate::half::Half;
use crate::halves::starting_at;
use boundary::put_edge;
use ground::{Lat, Lon, Point, Rectangle};

// An edge by its ends.
#[derive(Drop)]
pub struct Ends {
    pub a: Point,
    pub b: Point,
}

// The edge at a place of the room.
fn edge_at(room: &[u32], i: usize) -> Ends
    requires { 4 * i + 4 ≤ length room.now }
    ensures { edge result.a result.b ≡ edge_in room.now i }
{
    Ends {
        a: Point {
            lat: Lat(room[4 * i]),
            lon: Lon(room[4 * i + 1]),
        },
        b: Point {
            lat: Lat(room[4 * i + 2]),
            lon: Lon(room[4 * i + 3]),
        },
    }
}

// Whether an edge that is not beyond a side meets ground. An end strictly within tells it without products.
fn meets(a: Point, b: Point, ground: Rectangle) -> bool
    requires { beyond (edge a b) ground ≡ false }
    ensures { result ≡ not (misses (edge a b) ground) }
{
    edge::end_within(a, b, ground) || !edge::aside(a, b, ground)
}

// The place of the first of a half's edges that meets it. Most are beyond a side, and comparisons tell it.
pub(crate) fn first_met(room: &[u32], half: Half) -> Option<usize>
    requires { 4 * half.to ≤ length room.now }
    ensures { FoundFirst room.now half.ground half.first half.to result }
{
    let ground = half.ground;
    for i in half.first..half.to {
        let e = edge_at(room, i);
        if !edge::beyond(e.a, e.b, ground) && meets(e.a, e.b, ground) {
            return Some(i);
        }
    }
    None
}

// The count at a half's corner, turned by each of its edges on the way to a point.
pub(crate) fn odd_at(room: &[u32], half: Half, q: Point) -> bool
    requires { 4 * half.to ≤ length room.now }
    ensures { result ≡ differ half.odd (oddly (turns half.east half.corner q) (kept_in room.now half.from half.to)) }
{
    let p = half.corner;
    let east = half.east;
    let to = half.to;
    let mut odd = half.odd;
    for i in half.from..to {
        let e = edge_at(room, i);
        odd = odd != crossing::turns(p, q, east, e.a, e.b);
    }
    odd
}

// Puts those of the edges between two places that meet ground behind them, and answers where they end.
fn keep(room: &mut [u32], ground: Rectangle, from: usize, to: usize) -> usize
    requires { (from ≤ to) × (4 * (2 * to - from) ≤ length room.old) }
    ensures result_after { kept_in room.new to result ≡ meeting ground (kept_in room.old from to) }
    ensures lower_bound { (to ≤ result) × (4 * result ≤ length room.old) }
    ensures same { Same to room.old room.new }
{
    let mut end = to;
    for i in from..to {
        let e = edge_at(room, i);
        if !edge::beyond(e.a, e.b, ground) && meets(e.a, e.b, ground) {
            put_edge(room, end, e.a, e.b);
            end += 1;
        }
    }
    end
}

// A half whose edges before a place miss it, with edges of its own and the count at its own corner. With few
// halvings left, or few edges, or no room for as many again, it stays with those that it has.
pub(crate) fn sorted(numbers: &[u32], room: &mut [u32], half: Half, place: usize, left: u32) -> Half
    requires sound { Sound (boundary_of numbers.now) room.old half }
    requires place_lt_to { (place < half.to) × MetFirst room.old half.ground half.first half.to place }
    ensures ground_value { (result.ground ≡ half.ground) × Sound (boundary_of numbers.now) room.new result }
    ensures to_le_to { (half.to ≤ result.to) × Same half.to room.old room.new }
{
    let from = half.from;
    let to = half.to;
    if left < 6 || to - from < 8 || room.len() / 4 - to < to - place {
        return starting_at(half, place);
    }
    let ground = half.ground;
    let corner = ground::south_west(ground);
    let odd = odd_at(room, half, corner);
    let end = keep(room, ground, place, to);
    let east = ground.east;
    Half {
        ground,
        corner,
        odd,
        east,
        from: to,
        first: to,
        to: end,
    }
}
