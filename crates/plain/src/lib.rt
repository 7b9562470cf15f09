// The plain road: coding a unit by trying the cells of each level in turn, coarsest level first.
#![tactic(auto)]

mod search;

ghost use Rattle.std.specs.Prelude.{◌≡◌};
ghost use Rattle.boundary.specs.Listed.{edges_in, boundary_of};
ghost use Rattle.chosen.specs.Chosen.{choose, Over};
ghost use Rattle.unit.specs.Unit.{coding};
ghost use Rattle.unit.specs.Frame.{leaves, Searched};

use ground::{Cell, Rectangle};
use unit::{Kind, Refusal};

// The chosen cell over extents and a list of edges: levels 9 to 27 in turn. The two stay parameters here and
// in search.rt: a struct would lend the one and copy the other, and each function would take it apart.
fn chosen(edges: &[u32], r: Rectangle) -> Option<Cell>
    requires { Over r (edges_in edges.now) }
    ensures { result ≡ choose r (edges_in edges.now) }
{
    for level in ground::COARSEST..=ground::FINEST {
        let tried = search::try_level(edges, r, level);
        if let Some(c) = tried {
            return Some(c);
        }
    }
    None
}

// The chosen cell of a unit: its edges are listed in a room for 1,024 of them, and searched.
#[tactic(auto, using(unit::specs::FrameLaws::road_fits))]
fn chosen_of(numbers: &[u32], r: Rectangle) -> Option<Cell>
    requires { Searched numbers.now r }
    ensures { result ≡ choose r (boundary_of numbers.now) }
{
    let mut edges = [0u32; 4096];
    let mut places = [0usize; 1024];
    let count = boundary::list_edges(numbers, &mut edges, &mut places);
    chosen(&edges[0..4 * count], r)
}

// Codes a unit, for all inputs: writes bytes 0 to 19 of the room, or refuses and writes nothing. Its
// cost grows with the corners times the cells of the levels tried that lie over the extents.
#[tactic(auto, using(unit::specs::FrameLaws::road_refused, unit::specs::FrameLaws::road_ends))]
pub fn code(room: &mut [u8], numbers: &[u32], kind: Kind, number: u32) -> Result<(), Refusal>
    ensures { leaves result room.new ≡ coding room.old numbers.now kind number }
{
    let r = checking::admit(room.len(), numbers, kind, number)?;
    ending::finish(room, r, number, chosen_of(numbers, r))
}
