// Coding a unit by a road: the answers to `plain ROOM KIND NUMBER COORDINATE..` and `quick ..`.
use crate::outgoing::Outgoing;
use crate::request::{MOST, put_said};
use stated::Unit;
use unit::Refusal;

// The two roads.
#[derive(Drop)]
pub enum Road {
    Plain,
    Quick,
}

// The answer to a request that names the road, whose room's size starts after the name and a space.
pub(crate) fn answer(road: Road, text: &[u8], out: &mut Outgoing) -> Option<()> {
    let (size, end) = numbers::number_at(text, 6)?;
    if text.len() <= end {
        return None;
    }
    answer_unit(road, size as usize, &text[end + 1..], out)
}

// Codes the unit of a text into a room of so many bytes `.`, 64 at most.
fn answer_unit(road: Road, size: usize, text: &[u8], out: &mut Outgoing) -> Option<()> {
    let mut numbers = [0u32; MOST];
    let mut room = [b'.'; 64];
    let unit = stated::unit_of(text, &mut numbers)?;
    let count = unit.count;
    if numbers.len() < count || room.len() < size {
        return None;
    }
    let room = &mut room[..size];
    let said = code_by(road, unit, room, &numbers[..count]);
    put_said(unit::coded_number(said), unit::coded_place(said), room, out);
    Some(())
}

// What a road says.
fn code_by(road: Road, unit: Unit, room: &mut [u8], numbers: &[u32]) -> Result<(), Refusal> {
    let kind = unit::kind_of(unit.letter);
    match road {
        Road::Plain => plain::code(room, numbers, kind, unit.number),
        Road::Quick => quick::code(room, numbers, kind, unit.number),
    }
}
