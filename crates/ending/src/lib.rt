// The end of coding around what a search hands in: the fields of a unit from its cell, and the
// writing of its code.
#![tactic(auto)]

mod fields;
mod scale;

ghost use Rattle.std.specs.Prelude.{◌≡◌};
ghost use Rattle.code.specs.Code.{writing};
ghost use Rattle.unit.specs.Frame.{leaves, ending, finishing};

use code::Fields;
use ground::{Cell, Rectangle};
pub use scale::scale_of;
use unit::Refusal;

// Writes the code of fields; 7 where writing refuses them, which it does not for a cell that is inside.
fn end(room: &mut [u8], f: Fields) -> Result<(), Refusal>
    ensures { leaves result room.new ≡ ending (writing room.old f) }
{
    writer::write(room, f).map_err(|_| Refusal::NoCell)
}

// The end of coding around a cell; 7 where it is no cell of levels 9 to 27 within the range, or has no code.
#[tactic(auto, using(crate::proofs::Drawn::around))]
fn end_at(room: &mut [u8], r: Rectangle, number: u32, c: Cell) -> Result<(), Refusal>
    ensures { leaves result room.new ≡ finishing room.old r number (Some c) }
{
    let found = cells::sides_found(c);
    match found {
        Some(sides) => end(room, fields::fields(r, number, c, sides)),
        None => Err(Refusal::NoCell),
    }
}

// The end of coding, from the unit's extremes, its number and what a search hands in; 7 where that is none,
// is no cell, or has fields that cannot be written.
#[tactic(auto, using(crate::proofs::Drawn::around))]
pub fn finish(
    room: &mut [u8],
    r: Rectangle,
    number: u32,
    choice: Option<Cell>,
) -> Result<(), Refusal>
    ensures { leaves result room.new ≡ finishing room.old r number choice }
{
    match choice {
        Some(c) => end_at(room, r, number, c),
        None => Err(Refusal::NoCell),
    }
}
