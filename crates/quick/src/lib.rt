// The quick road: coding a unit by going down a tree of halves, coarsest level first.
#![tactic(auto)]

mod half;
mod halves;
mod halving;
mod kept;
mod passing;
mod search;

ghost use Rattle.std.specs.Prelude.{◌*◌, ◌/◌, ◌^◌, ◌≤◌, ◌<◌, ◌≡◌, length};
ghost use Rattle.boundary.specs.Listed.{boundary_of};
ghost use Rattle.chosen.specs.Chosen.{choose, Over};
ghost use Rattle.unit.specs.Unit.{coding};
ghost use Rattle.unit.specs.Frame.{leaves, Searched};

use ground::{Cell, Rectangle};
use unit::{Kind, Refusal};

// The chosen cell, with rooms of these sizes lent to the search: for the edges, first all of them and behind
// them those that are kept for halves, and for the places where they start.
fn chosen_with<const ROOM: usize, const PLACES: usize>(
    numbers: &[u32],
    r: Rectangle,
) -> Option<Cell>
    requires over { Over r (boundary_of numbers.now) }
    requires numbers_in_bounds { (length numbers.now / 2 ≤ ROOM / 4) × (length numbers.now / 2 ≤ PLACES) }
    requires sizes_fit { (4 * ROOM < 2 ^ 63) × (8 * PLACES < 2 ^ 63) }
    ensures { result ≡ choose r (boundary_of numbers.now) }
{
    let mut room = [0u32; ROOM];
    let mut places = [0usize; PLACES];
    let count = boundary::list_edges(numbers, &mut room, &mut places);
    search::search(numbers, &mut room, count, r)
}

// The chosen cell, with rooms as large as the unit needs: making them costs more than finding a house's
// cell, where they are for a coast's.
fn chosen(numbers: &[u32], r: Rectangle) -> Option<Cell>
    requires { Searched numbers.now r }
    ensures { result ≡ choose r (boundary_of numbers.now) }
{
    let count = numbers.len() / 2;
    if count <= 128 {
        return chosen_with::<512, 128>(numbers, r);
    }
    if count <= 256 {
        return chosen_with::<1024, 256>(numbers, r);
    }
    chosen_with::<32768, 1024>(numbers, r)
}

// Codes a unit, for all inputs: writes bytes 0 to 19 of the room, or refuses and writes nothing. Its
// cost grows with the corners, and with the ground that edges meet.
pub fn code(room: &mut [u8], numbers: &[u32], kind: Kind, number: u32) -> Result<(), Refusal>
    ensures { leaves result room.new ≡ coding room.old numbers.now kind number }
{
    let r = checking::admit(room.len(), numbers, kind, number)?;
    ending::finish(room, r, number, chosen(numbers, r))
}
