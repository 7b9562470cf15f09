// The replies to a register: from the bytes of each read to the bytes of the replies, on the quick
// road.
//
// A line comes in byte by byte, into a room that goes from read to read. The output of a whole run is
// what the listing says of the whole input, however the reads cut it: specs/Whole.antt.
#![tactic(auto)]

mod reply;

ghost use Rattle.std.specs.Prelude.{◌≡◌, ◌*◌, ◌≤◌, [], ◌∷◌, length};
ghost use Rattle.room.specs.Room.{Put};
ghost use Rattle.lines.specs.Lines.{longest};
ghost use Rattle.lines.specs.Answers.{always};
ghost use Rattle.lines.specs.Automaton.{after, ended, last};
ghost use Rattle.register.specs.Said.{said, coming};

pub use lines::Line;

// What a read leaves: the line that comes in then, and how many bytes the replies have.
#[derive(Drop)]
pub struct Listed {
    pub line: Line,
    pub put: usize,
}

// Puts the replies to the lines that end in the bytes of a read into the output, as much as fits: a
// line's number, its code or its refusal. The rest of the bytes stays in the room.
pub fn reply_all(line: Line, bytes: &[u8], room: &mut [u8], out: &mut [u8]) -> Listed
    ensures room_after { coming result.line room.new ≡ after (always said) (coming line room.old) bytes.now }
    ensures put { Put out.old 0 (ended (always said) (coming line room.old) bytes.now) result.put out.new }
{
    let mut space = [0u32; reply::MOST];
    let coordinates: &mut [u32] = &mut space;
    let mut listed = Listed { line, put: 0 };
    for byte in bytes {
        listed = take_byte(listed.line, *byte, room, coordinates, out, listed.put);
    }
    listed
}

// Takes one byte: a line feed ends the line, and its reply is put; any other byte goes into the room.
fn take_byte(
    line: Line,
    byte: u8,
    room: &mut [u8],
    coordinates: &mut [u32],
    out: &mut [u8],
    at: usize,
) -> Listed
    requires { longest ≤ 2 * length coordinates.old }
    ensures room_after { coming result.line room.new ≡ after (always said) (coming line room.old) (byte ∷ []) }
    ensures put { Put out.old at (ended (always said) (coming line room.old) (byte ∷ [])) result.put out.new }
{
    if byte == b'\n' {
        let put = reply::reply_held(line, room, coordinates, out, at);
        let number = std::num::wrapping_add_u64(line.number, 1);
        return Listed {
            line: Line { number, len: 0 },
            put,
        };
    }
    let len = lines::add(room, line.len, byte);
    Listed {
        line: Line {
            number: line.number,
            len,
        },
        put: at,
    }
}

// Puts the reply to a last line that has no line feed; there is none after a line feed that ends the
// input.
pub fn reply_last(line: Line, room: &[u8], out: &mut [u8]) -> usize
    ensures { Put out.old 0 (last (always said) (coming line room.now)) result out.new }
{
    if line.len == 0 {
        return 0;
    }
    let mut coordinates = [0u32; reply::MOST];
    reply::reply_held(line, room, &mut coordinates, out, 0)
}
