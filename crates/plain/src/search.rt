// The search of one level: west sides in turn, and for each of them south sides in turn, until the
// first cell that is inside.
ghost use Rattle.std.specs.Prelude.{◌≡◌};
ghost use Rattle.ground.specs.Levels.{IsLevel};
ghost use Rattle.boundary.specs.Listed.{edges_in};
ghost use Rattle.chosen.specs.Chosen.{try_west, try_level, Over};
ghost use Rattle.plain.specs.Asked.{West};

use ground::{Cell, Lat, Lon, Rectangle};

// The first cell that is inside, of a level and a west side: south sides in turn.
#[tactic(auto, using(crate::proofs::Searching::searching))]
fn try_west(edges: &[u32], r: Rectangle, level: u32, west: Lon) -> Option<Cell>
    requires over { Over r (edges_in edges.now) }
    requires level { IsLevel level }
    requires west { West level west.0 }
    ensures { result ≡ try_west r (edges_in edges.now) level west.0 }
{
    let from = r.south;
    let mut south = cells::low_side(level, from.0);
    while south < r.north.0 {
        let c = Cell {
            level,
            west,
            south: Lat(south),
        };
        if boundary::inside(edges, c) {
            return Some(c);
        }
        south = cells::high_side(level, south) as u32;
    }
    None
}

// The first of a level: west sides in turn.
#[tactic(auto, using(crate::proofs::Searching::searching))]
pub(crate) fn try_level(edges: &[u32], r: Rectangle, level: u32) -> Option<Cell>
    requires over { Over r (edges_in edges.now) }
    requires level { IsLevel level }
    ensures { result ≡ try_level r (edges_in edges.now) level }
{
    let from = r.west;
    let mut west = cells::low_side(level, from.0);
    while west < r.east.0 {
        let tried = try_west(edges, r, level, Lon(west));
        if let Some(c) = tried {
            return Some(c);
        }
        west = cells::high_side(level, west) as u32;
    }
    None
}
