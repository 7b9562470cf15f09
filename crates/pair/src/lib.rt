// Two edges of a boundary: whether they share a point, and whether two of which one follows the other
// share more than their corner. What that is stands in specs/Pair.antt. An edge stays two points: the record
// Edge of the definitions is no type of src/, and a struct beside it would be taken apart in each clause.
#![tactic(auto)]

ghost use Rattle.std.specs.Prelude.{◌≡◌, ◌&&◌, ◌||◌, ltb};
ghost use Rattle.side.specs.Side.{left as Side·left};
ghost use Rattle.edge.specs.Edge.{edge};
ghost use Rattle.pair.specs.Pair.{overlap as Pair·overlap, overlapping as Pair·overlapping, aside_of, share_point, on_one_line, both_beside, on_same_side, share_more};

use angles::{greater, lesser};
use edge::has_length;
use ground::Point;
use side::left;

// Whether the stretches from a to b and from c to d overlap, ends included.
pub fn overlap(a: u32, b: u32, c: u32, d: u32) -> bool
    ensures { result ≡ Pair·overlap a b c d }
{
    lesser(a, b) <= greater(c, d) && lesser(c, d) <= greater(a, b)
}

// Whether the extents of the edges from a to b and from c to d overlap in both directions, ends included.
#[tactic(auto, unfolding(crate::specs::Pair::overlapping))]
fn overlapping(a: Point, b: Point, c: Point, d: Point) -> bool
    ensures { result ≡ Pair·overlapping (edge a b) (edge c d) }
{
    overlap(a.lat.0, b.lat.0, c.lat.0, d.lat.0) && overlap(a.lon.0, b.lon.0, c.lon.0, d.lon.0)
}

// Whether c and d lie both strictly left of the line from a to b.
fn both_left(a: Point, b: Point, c: Point, d: Point) -> bool
    ensures { result ≡ (Side·left a b c && Side·left a b d) }
{
    left(a, b, c) && left(a, b, d)
}

// Whether they lie both strictly on one side of it.
#[tactic(auto, unfolding(crate::specs::Pair::aside_of))]
fn aside_of(a: Point, b: Point, c: Point, d: Point) -> bool
    ensures { result ≡ aside_of (edge a b) (edge c d) }
{
    both_left(a, b, c, d) || both_left(b, a, c, d)
}

// Whether two edges of which neither follows the other share a point, for all points. Comparisons come
// first, products only where these leave it open.
#[tactic(auto, unfolding(crate::specs::Pair::share_point))]
pub fn share_point(a: Point, b: Point, c: Point, d: Point) -> bool
    ensures { result ≡ share_point (edge a b) (edge c d) }
{
    overlapping(a, b, c, d) && !aside_of(a, b, c, d) && !aside_of(c, d, a, b)
}

// Whether a and c lie both below b, or both above it.
fn both_beside(a: u32, b: u32, c: u32) -> bool
    ensures { result ≡ both_beside a b c }
{
    (a < b && c < b) || (b < a && b < c)
}

// Whether a and c lie on the same side of b, by one direction or the other.
fn on_same_side(a: Point, b: Point, c: Point) -> bool
    ensures { result ≡ on_same_side a b c }
{
    both_beside(a.lat.0, b.lat.0, c.lat.0) || both_beside(a.lon.0, b.lon.0, c.lon.0)
}

// Whether b lies strictly between a and c.
fn goes_on(a: u32, b: u32, c: u32) -> bool
    ensures { result ≡ (ltb a b && ltb b c || ltb c b && ltb b a) }
{
    (a < b && b < c) || (c < b && b < a)
}

// Whether a, b and c lie on one line.
#[tactic(auto, using(side::specs::SideLaws::not_right))]
fn on_one_line(a: Point, b: Point, c: Point) -> bool
    ensures { result ≡ on_one_line a b c }
{
    !left(b, a, c) && !left(a, b, c)
}

// Whether the way from a over b to c turns back on one line at b. Where it goes on in a direction it does
// not, and needs no product.
fn turns_back(a: Point, b: Point, c: Point) -> bool
    ensures { result ≡ (on_one_line a b c && on_same_side a b c) }
{
    if goes_on(a.lat.0, b.lat.0, c.lat.0) || goes_on(a.lon.0, b.lon.0, c.lon.0) {
        return false;
    }
    on_same_side(a, b, c) && on_one_line(a, b, c)
}

// Whether the edge from c to d follows the one from a to b and shares more than their corner with it, for
// all points.
#[tactic(auto, unfolding(crate::specs::Pair::share_more))]
pub fn share_more(a: Point, b: Point, c: Point, d: Point) -> bool
    ensures { result ≡ share_more (edge a b) (edge c d) }
{
    !has_length(b, c) && turns_back(a, b, d)
}
