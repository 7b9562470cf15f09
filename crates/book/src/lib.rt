// The replies to message lines and to those that ask for the total: from the bytes of each read to the
// bytes of the replies, with an account that goes on from line to line.
//
// A line comes in byte by byte, into a room that goes from read to read. The account stays where it is:
// a message changes one place of it. It is not tested as a whole, 40: from the empty one on that is
// proved to be unnecessary, and the output of a whole run is what messages are answered, however the
// reads cut the input: specs/Whole.antt.
#![tactic(auto)]

mod post;

ghost use Rattle.std.specs.Prelude.{◌≡◌};
ghost use Rattle.room.specs.Room.{Put};
ghost use Rattle.lines.specs.Automaton.{after, ended, last};
ghost use Rattle.entitlements.specs.Entitlements.{processing};
ghost use Rattle.book.specs.Said.{posting, coming};

use crate::post::post_held;
use entitlements::Account;
pub use lines::Line;

// What a read leaves: the line that comes in then, the account, and how many bytes the replies have.
#[derive(Drop)]
pub struct Listed {
    pub line: Line,
    pub account: Account,
    pub put: usize,
}

// Puts the replies to the lines that end in the bytes of a read into the output, as much as fits: a
// line's number, and what its message is answered, the total, or its refusal. The rest of the bytes stays
// in the room.
pub fn reply_all(
    line: Line,
    account: Account,
    bytes: &[u8],
    room: &mut [u8],
    out: &mut [u8],
) -> Listed
    ensures room_after { coming result.line result.account room.new ≡ after (posting processing) (coming line account room.old) bytes.now }
    ensures put { Put out.old 0 (ended (posting processing) (coming line account room.old) bytes.now) result.put out.new }
{
    let mut line = line;
    let mut account = account;
    let mut put = 0;
    for byte in bytes {
        if *byte == b'\n' {
            let posted = post_held(line, &account, room, out, put);
            change::put_step(&mut account, posted.step);
            put = posted.put;
            line = Line {
                number: line.number.wrapping_add(1),
                len: 0,
            };
        } else {
            line.len = lines::add(room, line.len, *byte);
        }
    }
    Listed { line, account, put }
}

// Puts the reply to a last line that has no line feed; there is none after a line feed that ends the
// input.
pub fn reply_last(line: Line, account: Account, room: &[u8], out: &mut [u8]) -> usize
    ensures { Put out.old 0 (last (posting processing) (coming line account room.now)) result out.new }
{
    if line.len == 0 {
        return 0;
    }
    let posted = post_held(line, &account, room, out, 0);
    posted.put
}
