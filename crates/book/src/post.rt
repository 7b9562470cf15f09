// The reply to one line, and the step of the account, which stays where it is.
ghost use Rattle.std.specs.Prelude.{◌≡◌, take};
ghost use Rattle.room.specs.Room.{Put};
ghost use Rattle.lines.specs.Lines.{refused, reply_line};
ghost use Rattle.entitlements.specs.Entitlements.{says};
ghost use Rattle.change.specs.Change.{stays};
ghost use Rattle.book.specs.Said.{reply_of, total_said, reply_to, StepsBy};

use crate::Line;
use change::Step;
use entitlements::{Account, Answer};
use entry::Stated;

// What a line leaves: the step of the account, and the position after its reply.
#[derive(Drop)]
pub(crate) struct Posted {
    pub step: Step,
    pub put: usize,
}

// The reply to a line that came in, whose first bytes stand in a room.
pub(crate) fn post_held(
    line: Line,
    account: &Account,
    room: &[u8],
    out: &mut [u8],
    at: usize,
) -> Posted
    ensures steps_by { StepsBy (take line.len room.now) account.now result.step }
    ensures put { Put out.old at (reply_to line.number account.now (take line.len room.now)) result.put out.new }
{
    let number = line.number;
    let len = line.len;
    if room.len() < len {
        return post_line(number, account, room, out, at);
    }
    post_line(number, account, &room[..len], out, at)
}

// The reply to a line.
fn post_line(number: u64, account: &Account, line: &[u8], out: &mut [u8], at: usize) -> Posted
    ensures steps_by { StepsBy line.now account.now result.step }
    ensures put { Put out.old at (reply_to number account.now line.now) result.put out.new }
{
    if line.len() > lines::LONGEST {
        return refuse(account, out, at, number, 10);
    }
    let stated = entry::message_of(line);
    match stated {
        Some(Stated::Message(kind, message, start)) => {
            let change = change::change_of(kind, account, &line[start..], message);
            let put = put_answer(out, at, number, change.answer);
            Posted {
                step: change.step,
                put,
            }
        }
        Some(Stated::Total) => tell(account, out, at, number),
        None => refuse(account, out, at, number, 9),
    }
}

// The reply to a line that is refused, which leaves the account as it was. The refusal comes as its number,
// which is all that is put.
fn refuse(account: &Account, out: &mut [u8], at: usize, number: u64, refusal: u32) -> Posted
    ensures step_value { result.step ≡ stays account.now.last account.now.total }
    ensures put { Put out.old at (reply_line number (refused refusal 0)) result.put out.new }
{
    let put = output::put_refused(out, at, number, refusal, 0);
    Posted {
        step: change::stay(account.last, account.total),
        put,
    }
}

// The reply to a line that asks for the total, which leaves the account as it was.
fn tell(account: &Account, out: &mut [u8], at: usize, number: u64) -> Posted
    ensures step_value { result.step ≡ stays account.now.last account.now.total }
    ensures put { Put out.old at (reply_line number (total_said account.now.total)) result.put out.new }
{
    let end = output::put_decimal(out, at, number);
    let end = room::put(out, end, b" ");
    let end = room::put(out, end, b"total ");
    let end = output::put_decimal(out, end, account.total);
    let put = room::put(out, end, b"\n");
    Posted {
        step: change::stay(account.last, account.total),
        put,
    }
}

// The reply to a line whose message has an answer: its words, or the number of its refusal.
fn put_answer(out: &mut [u8], at: usize, line: u64, answer: Answer) -> usize
    ensures { Put out.old at (reply_line line (reply_of (says answer))) result out.new }
{
    match answer {
        Answer::Activated => output::put_code(out, at, line, b"activated"),
        Answer::Already => output::put_code(out, at, line, b"already"),
        Answer::Cancelled => output::put_code(out, at, line, b"cancelled"),
        Answer::NotActive => output::put_code(out, at, line, b"not active"),
        Answer::Old => output::put_code(out, at, line, b"old"),
        Answer::Account => output::put_refused(out, at, line, 40, 0),
        Answer::Number => output::put_refused(out, at, line, 41, 0),
        Answer::Code => output::put_refused(out, at, line, 42, 0),
        Answer::Full => output::put_refused(out, at, line, 43, 0),
    }
}
