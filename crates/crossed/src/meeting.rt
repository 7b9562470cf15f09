// Two edges by the places of the corners where they start: where they end, which of them follows which,
// and whether they meet.
ghost use Rattle.std.specs.Prelude.{ℕ, unwrap_or, ◌/◌, ◌<◌, ◌≡◌, not, length};
ghost use Rattle.corners.specs.Corners.{corner_at};
ghost use Rattle.edge.specs.Edge.{no_length};
ghost use Rattle.boundary.specs.Listed.{place_after, edge_from};
ghost use Rattle.crossed.specs.Crossed.{meet as Crossed·meet};
ghost use Rattle.crossed.specs.Meeting.{start_from, following as Meeting·following, placed_at, meeting as Meeting·meeting};

use ground::{Lat, Lon, Point};

// The corner at a place. It is asked for most of all here, so it asks that the place is in the list, where
// `corners::corner` has an answer for all.
pub(crate) fn corner(numbers: &[u32], i: usize) -> Point
    requires { i < length numbers.now / 2 }
    ensures { result ≡ corner_at numbers.now i }
{
    Point {
        lat: Lat(numbers[2 * i]),
        lon: Lon(numbers[2 * i + 1]),
    }
}

// The place after a place of so many: after the last comes the first. The walk of `boundary` has the same two
// lines for itself: made public there they would need a must-fail edit of their own, and be no plainer.
pub(crate) fn place_after(count: usize, i: usize) -> usize
    requires { i < count }
    ensures { result ≡ place_after count i }
{
    let after = i + 1;
    if after == count { 0 } else { after }
}

// The corner where the edge from a place ends.
pub(crate) fn end_of(numbers: &[u32], i: usize) -> Point
    requires { i < length numbers.now / 2 }
    ensures { result ≡ corner_at numbers.now (place_after (length numbers.now / 2) i) }
{
    corner(numbers, place_after(numbers.len() / 2, i))
}

// Whether the edge from a place has a length.
fn has_length(numbers: &[u32], i: usize) -> bool
    requires { i < length numbers.now / 2 }
    ensures { result ≡ not (no_length (edge_from numbers.now i)) }
{
    edge::has_length(corner(numbers, i), end_of(numbers, i))
}

// The first place, from one on, where an edge starts that has a length.
#[tactic(auto, using(crate::specs::MeetingLaws::start_here, crate::specs::MeetingLaws::start_later, crate::specs::MeetingLaws::start_none))]
fn start_from(numbers: &[u32], from: usize) -> Option<usize>
    ensures { (none : ℕ) → unwrap_or result none ≡ start_from numbers.now from none }
{
    for i in from..numbers.len() / 2 {
        if has_length(numbers, i) {
            return Some(i);
        }
    }
    None
}

// The place of the edge that follows the one from a place: the last is followed by the first.
fn following(numbers: &[u32], i: usize) -> usize
    requires { i < length numbers.now / 2 }
    ensures { result ≡ Meeting·following numbers.now i }
{
    start_from(numbers, i + 1)
        .or_else(|| start_from(numbers, 0))
        .unwrap_or(0)
}

// Whether two edges share a point other than the corner at which one follows the other.
#[tactic(auto, unfolding(crate::specs::Crossed::meet))]
fn meet(numbers: &[u32], i: usize, j: usize) -> bool
    requires i_in_bounds { i < length numbers.now / 2 }
    requires j_in_bounds { j < length numbers.now / 2 }
    ensures { result ≡ Crossed·meet (placed_at numbers.now i) (placed_at numbers.now j) }
{
    let a = corner(numbers, i);
    let b = end_of(numbers, i);
    let c = corner(numbers, j);
    let d = end_of(numbers, j);
    if j == following(numbers, i) {
        return pair::share_more(a, b, c, d);
    }
    if i == following(numbers, j) {
        return pair::share_more(c, d, a, b);
    }
    pair::share_point(a, b, c, d)
}

// Whether the edges from two places have a length and meet.
#[tactic(auto, unfolding(crate::specs::Meeting::meeting))]
pub(crate) fn meeting(numbers: &[u32], i: usize, j: usize) -> bool
    requires i_in_bounds { i < length numbers.now / 2 }
    requires j_in_bounds { j < length numbers.now / 2 }
    ensures { result ≡ Meeting·meeting numbers.now i j }
{
    has_length(numbers, i) && has_length(numbers, j) && meet(numbers, i, j)
}
