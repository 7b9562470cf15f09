// The unit that a line of the listing states: document 01, "`B` or `F` (building, other), a space, the
// number, then coordinates, each after one space."
#![tactic(auto)]

ghost use Rattle.std.specs.Prelude.{◌≡◌, true, [], ◌∷◌};
ghost use Rattle.room.specs.Room.{put_at};
ghost use Rattle.lines.specs.Lines.{is_kind, form};
ghost use Rattle.stated.specs.Stated.{unit_said, coordinates_in, unit_after, coordinates_after};

use lines::starts;
use numbers::{number_at, numbers_at};

// A unit: the letter of its kind, its number, and how many coordinates it has. The letter is a byte, since the
// kinds stand in `unit`, of which this room knows nothing.
#[derive(Clone, Copy)]
pub struct Unit {
    pub letter: u8,
    pub number: u32,
    pub count: usize,
}

// The unit that a line states; or none, where the line is not of this form. The first of its coordinates
// go into the room, as many as it takes, and all of them are counted.
pub fn unit_of(line: &[u8], room: &mut [u32]) -> Option<Unit>
    ensures value { result ≡ unit_said (form line.now) }
    ensures room_after { room.new ≡ put_at room.old 0 (coordinates_in line.now) }
{
    if starts(line, b"B ") {
        return unit_after(line, b'B', room);
    }
    if starts(line, b"F ") {
        return unit_after(line, b'F', room);
    }
    None
}

// The unit of a line that starts with a kind and a space.
fn unit_after(line: &[u8], kind: u8, room: &mut [u32]) -> Option<Unit>
    requires { is_kind (kind ∷ []) ≡ true }
    ensures value { result ≡ unit_after kind line.now }
    ensures room_after { room.new ≡ put_at room.old 0 (coordinates_after kind line.now) }
{
    let (number, end) = number_at(line, 2)?;
    let count = numbers_at(line, end, room)?;
    Some(Unit {
        letter: kind,
        number,
        count,
    })
}
