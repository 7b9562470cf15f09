// The record of one line, put into the page, or its refusal, which is told.
ghost use Rattle.std.specs.Prelude.{◌≡◌, take};
ghost use Rattle.room.specs.Room.{Put};
ghost use Rattle.lines.specs.Lines.{refused, reply_line};
ghost use Rattle.recording.specs.Recorded.{record_said, said, as_record, as_told};

use crate::{Ends, Line};
use entitlements::Kind;
use entry::Stated;

// Records a line that came in, whose first bytes stand in a room.
pub(crate) fn write_held(
    line: Line,
    room: &[u8],
    ends: Ends,
    out: &mut [u8],
    told: &mut [u8],
) -> Ends
    ensures put { Put out.old ends.put (as_record line.number (said (take line.len room.now))) result.put out.new }
    ensures put_2 { Put told.old ends.told (as_told line.number (said (take line.len room.now))) result.told told.new }
{
    let number = line.number;
    let len = line.len;
    if room.len() < len {
        return write_line(number, room, ends, out, told);
    }
    write_line(number, &room[..len], ends, out, told)
}

// Records a line.
fn write_line(number: u64, line: &[u8], ends: Ends, out: &mut [u8], told: &mut [u8]) -> Ends
    ensures put { Put out.old ends.put (as_record number (said line.now)) result.put out.new }
    ensures put_2 { Put told.old ends.told (as_told number (said line.now)) result.told told.new }
{
    if line.len() > lines::LONGEST {
        return refuse(number, 10, ends, told);
    }
    let stated = entry::message_of(line);
    match stated {
        Some(Stated::Message(kind, message, start)) => {
            write_message(number, kind, &line[start..], message, ends, out, told)
        }
        Some(Stated::Total) => refuse(number, 9, ends, told),
        None => refuse(number, 9, ends, told),
    }
}

// Records a line that states a message.
fn write_message(
    line: u64,
    kind: Kind,
    text: &[u8],
    number: u64,
    ends: Ends,
    out: &mut [u8],
    told: &mut [u8],
) -> Ends
    ensures put { Put out.old ends.put (as_record line (record_said kind text.now number)) result.put out.new }
    ensures put_2 { Put told.old ends.told (as_told line (record_said kind text.now number)) result.told told.new }
{
    let mut bytes = [0u8; page::RECORD];
    let answer = page::write_record(&mut bytes, kind, text, number);
    let refusal = page::written_number(answer);
    if refusal != 0 {
        return refuse(line, refusal, ends, told);
    }
    let put = room::put(out, ends.put, &bytes);
    Ends {
        put,
        told: ends.told,
    }
}

// Tells the refusal of a line, for which nothing goes into the page. It comes as its number, which is all that
// is told.
fn refuse(line: u64, refusal: u32, ends: Ends, told: &mut [u8]) -> Ends
    ensures put_value { result.put ≡ ends.put }
    ensures put { Put told.old ends.told (reply_line line (refused refusal 0)) result.told told.new }
{
    let end = output::put_refused(told, ends.told, line, refusal, 0);
    Ends {
        put: ends.put,
        told: end,
    }
}
