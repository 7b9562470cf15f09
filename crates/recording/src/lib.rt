// The records of message lines: from the bytes of each read to the bytes of a journal page, and what is
// told of lines that have no record.
//
// A line comes in byte by byte, into a room that goes from read to read. No account is kept: what is said
// of a line goes by that line alone. What is put read by read is the page of the whole input, and what is
// told of it, however the reads cut the input: specs/Whole.antt.
#![tactic(auto)]

mod write;

ghost use Rattle.std.specs.Prelude.{◌≡◌, [], ◌∷◌};
ghost use Rattle.room.specs.Room.{Put};
ghost use Rattle.lines.specs.Answers.{always};
ghost use Rattle.lines.specs.Automaton.{after};
ghost use Rattle.lines.specs.Putting.{ended_by, last_by};
ghost use Rattle.recording.specs.Recorded.{said, as_record, as_told, coming};

pub use lines::Line;

// What a read leaves: the line that comes in then, and how many bytes the records and what is told have.
#[derive(Drop)]
pub struct Recorded {
    pub line: Line,
    pub put: usize,
    pub told: usize,
}

// How many bytes the records and what is told have.
#[derive(Drop)]
pub struct Ends {
    pub put: usize,
    pub told: usize,
}

// Puts the records of the lines that end in the bytes of a read into the output, as much as fits, and
// tells the refusals of those that have none, as much as fits. The rest of the bytes stays in the room.
pub fn record_all(
    line: Line,
    bytes: &[u8],
    room: &mut [u8],
    out: &mut [u8],
    told: &mut [u8],
) -> Recorded
    ensures room_after { coming result.line room.new ≡ after (always said) (coming line room.old) bytes.now }
    ensures put { Put out.old 0 (ended_by as_record (always said) (coming line room.old) bytes.now) result.put out.new }
    ensures put_2 { Put told.old 0 (ended_by as_told (always said) (coming line room.old) bytes.now) result.told told.new }
{
    let mut recorded = Recorded {
        line,
        put: 0,
        told: 0,
    };
    for byte in bytes {
        recorded = take_byte(recorded, *byte, room, out, told);
    }
    recorded
}

// Takes one byte: a line feed ends the line, which is recorded; any other byte goes into the room.
fn take_byte(
    recorded: Recorded,
    byte: u8,
    room: &mut [u8],
    out: &mut [u8],
    told: &mut [u8],
) -> Recorded
    ensures room_after { coming result.line room.new ≡ after (always said) (coming recorded.line room.old) (byte ∷ []) }
    ensures put { Put out.old recorded.put (ended_by as_record (always said) (coming recorded.line room.old) (byte ∷ [])) result.put out.new }
    ensures put_2 { Put told.old recorded.told (ended_by as_told (always said) (coming recorded.line room.old) (byte ∷ [])) result.told told.new }
{
    let line = recorded.line;
    let put = recorded.put;
    let at = recorded.told;
    if byte == b'\n' {
        let ends = write::write_held(line, room, Ends { put, told: at }, out, told);
        let number = std::num::wrapping_add_u64(line.number, 1);
        return Recorded {
            line: Line { number, len: 0 },
            put: ends.put,
            told: ends.told,
        };
    }
    let number = line.number;
    let len = lines::add(room, line.len, byte);
    Recorded {
        line: Line { number, len },
        put,
        told: at,
    }
}

// Records a last line that has no line feed; there is none after a line feed that ends the input.
pub fn record_last(line: Line, room: &[u8], out: &mut [u8], told: &mut [u8]) -> Ends
    ensures put { Put out.old 0 (last_by as_record (always said) (coming line room.now)) result.put out.new }
    ensures put_2 { Put told.old 0 (last_by as_told (always said) (coming line room.now)) result.told told.new }
{
    let start = Ends { put: 0, told: 0 };
    if line.len == 0 {
        return start;
    }
    write::write_held(line, room, start, out, told)
}
