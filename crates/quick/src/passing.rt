// The test for passing over a half.
ghost use Rattle.std.specs.Prelude.{◌≡◌, true};
ghost use Rattle.boundary.specs.Listed.{boundary_of};
ghost use Rattle.quick.specs.Half.{Sound, common as Half·common, too_little, ground_outside, HoldsNone, yes, Else};
ghost use Rattle.quick.specs.Descent.{Seeks};

use crate::half::{Half, Sought};
use crate::kept::{first_met, odd_at};
use ground::Rectangle;

// What the test says of a half: it is passed over; or it is inside, or an edge meets it, the first at a
// place. It has three cases, and so is no Option.
#[derive(Drop)]
pub enum Tested {
    PassedOver,
    Inside,
    Met(usize),
}

// How much of an extent lies between two sides.
fn common(low: u32, high: u32, from: u32, to: u32) -> u32
    ensures { result ≡ Half·common low high from to }
{
    high.min(to).saturating_sub(low.max(from))
}

// Whether ground has less of the extents in it than a width.
fn too_little(g: Rectangle, r: Rectangle, least: u32) -> bool
    ensures { result ≡ too_little g r least }
{
    common(g.south.0, g.north.0, r.south.0, r.north.0) < least
        || common(g.west.0, g.east.0, r.west.0, r.east.0) < least
}

// The test for passing over, of a half and what is sought. It says yes for every half that no edge meets
// and whose centre is not inside, and never for one that holds a wanted cell. A half with less of the
// extents in it than the narrowest wanted cell holds none; and no count is taken where an edge meets.
pub(crate) fn test(numbers: &[u32], room: &[u32], half: Half, sought: Sought) -> Tested
    requires sound { Sound (boundary_of numbers.now) room.now half }
    requires seeks { Seeks (boundary_of numbers.now) sought }
    ensures result_value { ground_outside (boundary_of numbers.now) half.ground ≡ true → yes result ≡ true }
    ensures holds_none { yes result ≡ true → HoldsNone (boundary_of numbers.now) sought.finest half.ground }
    ensures fact { Else (boundary_of numbers.now) room.now half result }
{
    let ground = half.ground;
    if too_little(ground, sought.extents, sought.least) {
        return Tested::PassedOver;
    }
    if let Some(place) = first_met(room, half) {
        return Tested::Met(place);
    }
    if odd_at(room, half, ground::south_west(ground)) {
        return Tested::Inside;
    }
    Tested::PassedOver
}
