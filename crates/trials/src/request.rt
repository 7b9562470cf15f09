// A request's answer, put into the output. A function that finds no request puts nothing, and says none.
ghost use Rattle.std.specs.Prelude.{◌≤◌, length, IfSome};

use crate::outgoing::Outgoing;
use crate::road::Road;
use crate::{accounts, codes, pages, questions, road};

// More numbers than a line has: each takes a space and a digit.
pub(crate) const MOST: usize = lines::LONGEST / 2;

// The answer to the line whose bytes stand in a room, `?` where it is no request, and a line feed.
pub(crate) fn answer_line(room: &[u8], len: usize, out: &mut Outgoing) {
    if answer_held(room, len, out).is_none() {
        out.put(b"?");
    }
    out.put(b"\n");
}

fn answer_held(room: &[u8], len: usize, out: &mut Outgoing) -> Option<()> {
    if len > lines::LONGEST || room.len() < len {
        return None;
    }
    answer(&room[..len], out)
}

fn answer(text: &[u8], out: &mut Outgoing) -> Option<()> {
    if lines::starts(text, b"write ") {
        return codes::answer_write(text, out);
    }
    if lines::starts(text, b"read ") {
        return codes::answer_read(text, out);
    }
    if lines::starts(text, b"plain ") {
        return road::answer(Road::Plain, text, out);
    }
    if lines::starts(text, b"quick ") {
        return road::answer(Road::Quick, text, out);
    }
    if lines::starts(text, b"message ") {
        return accounts::answer(text, out);
    }
    if lines::starts(text, b"total ") {
        return accounts::answer_total(text, out);
    }
    answer_page(text, out)
}

// The requests about journal pages; any other is a question.
fn answer_page(text: &[u8], out: &mut Outgoing) -> Option<()> {
    if lines::starts(text, b"record ") {
        return pages::answer_record(text, out);
    }
    if lines::starts(text, b"look ") {
        return pages::answer_look(text, out);
    }
    if lines::starts(text, b"replay ") {
        return pages::answer_replay(text, out);
    }
    questions::answer(text, out)
}

// Puts the numbers of a line from a position on into the room and counts them; none where anything else
// stands there, or more numbers than the room takes.
pub(crate) fn count_in(text: &[u8], at: usize, room: &mut [u32]) -> Option<usize>
    ensures { IfSome result (λ count. count ≤ length room.old) }
{
    let count = numbers::numbers_at(text, at, room)?;
    if count > room.len() {
        return None;
    }
    Some(count)
}

// Puts what a road or the writer said: number, place and the room's bytes, with spaces between.
pub(crate) fn put_said(number: u32, place: u32, room: &[u8], out: &mut Outgoing) {
    out.put_decimal(number as u64);
    out.put_number(place as u64);
    out.put(b" ");
    out.put(room);
}
