// Replies of the listing put into an output: document 01, "line number from 1, a space, then the code or
// `refused`, number and place, each after one space, and a line feed." Each function puts as much as
// fits from a position on, and says the position after it.
#![tactic(auto)]

ghost use Rattle.room.specs.Room.{Put};
ghost use Rattle.lines.specs.Lines.{decimal, coded, refused, saying, reply_line};

use room::put;

// Puts the decimal spelling of a number.
pub fn put_decimal(out: &mut [u8], at: usize, n: u64) -> usize
    ensures { Put out.old at (decimal n) result out.new }
{
    let mut text = [0u8; 20];
    let count = io::decimal(n, &mut text);
    put(out, at, &text[..count])
}

// Puts the reply to a line that has a code: the line's number, a space, the code and a line feed.
pub fn put_code(out: &mut [u8], at: usize, line: u64, code: &[u8]) -> usize
    ensures { Put out.old at (reply_line line (coded code.now)) result out.new }
{
    let end = put_decimal(out, at, line);
    let end = put(out, end, b" ");
    let end = put(out, end, code);
    put(out, end, b"\n")
}

// Puts the reply to a line that is refused: the line's number, a space, `refused`, the refusal's number
// and its place, each after one space, and a line feed.
pub fn put_refused(out: &mut [u8], at: usize, line: u64, number: u32, place: u32) -> usize
    ensures { Put out.old at (reply_line line (refused number place)) result out.new }
{
    let end = put_decimal(out, at, line);
    let end = put(out, end, b" ");
    let end = put_refusal(out, end, number, place);
    put(out, end, b"\n")
}

fn put_refusal(out: &mut [u8], at: usize, number: u32, place: u32) -> usize
    ensures { Put out.old at (saying (refused number place)) result out.new }
{
    let end = put(out, at, b"refused ");
    let end = put_decimal(out, end, number as u64);
    let end = put(out, end, b" ");
    put_decimal(out, end, place as u64)
}
