// An edge beside a point: whether it crosses the point's latitude east of it, and whether it turns the count
// between two points. Comparisons come first, products only where these leave it open.
#![tactic(auto)]

ghost use Rattle.std.specs.Prelude.{◌≡◌, cond, leb};
ghost use Rattle.facts.specs.Tests.{differ};
ghost use Rattle.side.specs.Side.{left as Side·left};
ghost use Rattle.edge.specs.Edge.{edge, crosses_east, low, between as Edge·between, turns as Edge·turns};

use ground::{Lon, Point};
use side::left;

// Whether exactly one end of an edge is at or below a point's latitude.
fn straddles(p: Point, a: Point, b: Point) -> bool
    ensures { result ≡ differ (low a p) (low b p) }
{
    (a.lat.0 <= p.lat.0) != (b.lat.0 <= p.lat.0)
}

// Whether an edge passes east of a point, where it crosses the point's latitude.
fn passes_east(p: Point, a: Point, b: Point) -> bool
    ensures { result ≡ cond (low a p) (Side·left a b p) (Side·left b a p) }
{
    if a.lat.0 <= p.lat.0 {
        return left(a, b, p);
    }
    left(b, a, p)
}

// Whether an edge crosses a point's latitude strictly east of the point. The comparisons stand by
// themselves, small enough to be inlined: most edges pass above or below a point.
pub fn crosses_east(p: Point, a: Point, b: Point) -> bool
    ensures { result ≡ crosses_east p (edge a b) }
{
    straddles(p, a, b) && passes_east(p, a, b)
}

// Whether a corner is at or below the latitude of one of two points alone.
fn parted(p: Point, q: Point, v: Point) -> bool
    ensures { result ≡ differ (low v p) (low v q) }
{
    (v.lat.0 <= p.lat.0) != (v.lat.0 <= q.lat.0)
}

// Whether a corner is at or beyond an east side.
fn past_east(east: Lon, v: Point) -> bool
    ensures { result ≡ leb east.0 v.lon.0 }
{
    east.0 <= v.lon.0
}

// Whether a corner at or beyond an east side is at or below the latitude of one of two points alone.
fn between(p: Point, q: Point, east: Lon, v: Point) -> bool
    ensures { result ≡ Edge·between east p q v }
{
    past_east(east, v) && parted(p, q, v)
}

// Whether an edge turns the count from odd to even, or back, between two points west of an east side. Most
// edges have both ends on one side of each latitude, and cross nothing: the ends alone turn the count, where
// they are parted by the latitudes, and one of them alone is beyond the east side.
pub fn turns(p: Point, q: Point, east: Lon, a: Point, b: Point) -> bool
    ensures { result ≡ Edge·turns east p q (edge a b) }
{
    if straddles(p, a, b) || straddles(q, a, b) {
        let ends = between(p, q, east, a) != between(p, q, east, b);
        return (crosses_east(p, a, b) != crosses_east(q, a, b)) != ends;
    }
    parted(p, q, a) && past_east(east, a) != past_east(east, b)
}
