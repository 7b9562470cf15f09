// Lines: what document 01 says of the listing's is specs/Lines.antt, lines of messages are in
// specs/Messages.antt, and how either come in is specs/Automaton.antt. Here a line grows byte by byte in room that the caller lends.
//
// No function reads or writes anything but what it is lent, no public one has a `requires`, and each
// contract is an equation to a definition of specs/.
#![tactic(auto)]

ghost use Rattle.std.specs.Prelude.{◌≡◌, length, set};
ghost use Rattle.lines.specs.Automaton.{grown};
ghost use Rattle.lines.specs.Starts.{starts_with};

// The most bytes of a line that is not refused 10.
pub const LONGEST: usize = 24576;

// The room for a line: one byte more than a line may have, so that a longer one shows.
pub const ROOM: usize = LONGEST + 1;

// No reply to a line has more bytes: the line's number, `refused`, number and place.
pub const REPLY: usize = 71;

// The line that comes in: its number, and how many of its bytes stand in the room.
#[derive(Clone, Copy)]
pub struct Line {
    pub number: u64,
    pub len: usize,
}

// How many bytes of a line stand in a room after one byte more, which is not a line feed. The byte
// goes into the room while the room lasts; the rest of a long line is passed over.
pub fn add(room: &mut [u8], len: usize, byte: u8) -> usize
    ensures value { result ≡ grown (length room.old) len }
    ensures room_after { room.new ≡ set room.old len byte }
{
    if len < room.len() {
        room[len] = byte;
        return len + 1;
    }
    len
}

// Whether a line starts with the bytes of a text.
#[tactic(auto, using(crate::specs::StartsLaws::starts_as))]
pub fn starts(line: &[u8], text: &[u8]) -> bool
    ensures { result ≡ starts_with line.now text.now }
{
    line.starts_with(text)
}
