// What is asked of a list of edges: whether one meets a rectangle, and whether a point has an odd count.
ghost use Rattle.std.specs.Prelude.{◌≡◌, ◌&&◌};
ghost use Rattle.ground.specs.Cells.{is_cell};
ghost use Rattle.boundary.specs.Boundary.{unmet as Boundary·unmet, point_inside, inside as Boundary·inside};
ghost use Rattle.boundary.specs.Listed.{edges_in};

use corners::corner;
use crossing::crosses_east;
use edge::misses;
use ground::{Cell, Point, Rectangle};

// Whether no edge of a list meets a rectangle.
fn unmet(edges: &[u32], r: Rectangle) -> bool
    ensures { result ≡ Boundary·unmet r (edges_in edges.now) }
{
    for i in 0..edges.len() / 4 {
        if !misses(corner(edges, 2 * i), corner(edges, 2 * i + 1), r) {
            return false;
        }
    }
    true
}

// Whether a point has an odd count of edges that cross its latitude strictly east of it.
pub fn odd_count(edges: &[u32], p: Point) -> bool
    ensures { result ≡ point_inside p (edges_in edges.now) }
{
    let mut odd = false;
    for i in 0..edges.len() / 4 {
        odd = odd != crosses_east(p, corner(edges, 2 * i), corner(edges, 2 * i + 1));
    }
    odd
}

// Whether a cell of levels 9 to 27 within the range is inside; false for what is no such cell.
pub fn inside(edges: &[u32], c: Cell) -> bool
    ensures { result ≡ (is_cell c && Boundary·inside (edges_in edges.now) c) }
{
    let found = cells::sides_found(c);
    match found {
        Some(r) => unmet(edges, r) && odd_count(edges, ground::centre(r)),
        None => false,
    }
}
