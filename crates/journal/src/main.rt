// The program over the journal of document 02, request 6: message lines on standard input, the page of
// their records on standard output, and on standard error the lines that have no record.
//
// What is written is decided in `recording`; here bytes only come in and go out. What comes of a read is
// written before the next read, the records and then what is told, each in one piece. A read or a write
// that fails ends the program, which says so on standard error.
#![tactic(auto)]

ghost use Rattle.std.specs.Prelude.{◌*◌, ◌≤◌, ◌<◌, ◌≡◌, length};
ghost use Rattle.page.specs.Page.{record_length};
ghost use Rattle.lines.specs.Lines.{longest};
ghost use Rattle.lines.specs.Answers.{always};
ghost use Rattle.lines.specs.Automaton.{after};
ghost use Rattle.lines.specs.Putting.{ended_by, last_by};
ghost use Rattle.lines.specs.ReplyLaws.{reply_most};
ghost use Rattle.output.specs.Written.{Starts};
ghost use Rattle.recording.specs.Recorded.{said, as_record, as_told, coming};

use recording::{Ends, Line, Recorded};
use std::io;
use std::io::{Read, Write};

// The most bytes of one read.
const READ: usize = 16384;

// Room for a record for each byte of a read, and for a refusal, since all of them may be line feeds.
const WRITTEN: usize = READ * page::RECORD;

const TOLD: usize = READ * lines::REPLY;

// What fails and ends the program: a read, a write, or the telling of a line that has no record, of which
// nothing can be told.
#[derive(Drop)]
enum Failed {
    Read(io::Error),
    Write(io::Error),
    Tell(io::Error),
}

fn main(rt: HostRuntime) {
    let mut input = [0u8; READ];
    let mut room = [0u8; lines::ROOM];
    let mut output = [0u8; WRITTEN];
    let mut told = [0u8; TOLD];
    match run(&rt, &mut input, &mut room, &mut output, &mut told) {
        Ok(()) => (),
        Err(Failed::Read(e)) => say(&rt, "standard input", e),
        Err(Failed::Write(e)) => say(&rt, "standard output", e),
        Err(Failed::Tell(_)) => (),
    }
}

// Reads until the input ends. Nothing says that it does, so the reads are counted, up to a number that no
// run uses up. The room is longer than a line may be, as the law of the whole page asks.
fn run(
    rt: &HostRuntime,
    input: &mut [u8],
    room: &mut [u8],
    output: &mut [u8],
    told: &mut [u8],
) -> Result<(), Failed>
    requires input_nonzero { 0 < length input.old }
    requires longest_in_bounds { longest < length room.old }
    requires record_length_in_bounds { length input.old * record_length ≤ length output.old }
    requires reply_most_in_bounds { length input.old * reply_most ≤ length told.old }
{
    let mut line = Line { number: 1, len: 0 };
    for _ in 0..u64::MAX {
        let n = rt.stdin().read(input).map_err(Failed::Read)?;
        if n == 0 {
            let ends = record_last(line, room, output, told);
            return write_out(rt, output, ends.put, told, ends.told);
        }
        let recorded = record_all(line, &input[..n], room, output, told);
        write_out(rt, output, recorded.put, told, recorded.told)?;
        line = recorded.line;
    }
    Ok(())
}

// The records of the lines that end in the bytes of a read, all of them, at the start of the output, and
// what is told of the others, all of it.
fn record_all(
    line: Line,
    bytes: &[u8],
    room: &mut [u8],
    output: &mut [u8],
    told: &mut [u8],
) -> Recorded
    requires record_length_in_bounds { length bytes.now * record_length ≤ length output.old }
    requires reply_most_in_bounds { length bytes.now * reply_most ≤ length told.old }
    ensures room_after { coming result.line room.new ≡ after (always said) (coming line room.old) bytes.now }
    ensures starts { Starts output.new result.put (ended_by as_record (always said) (coming line room.old) bytes.now) }
    ensures starts_2 { Starts told.new result.told (ended_by as_told (always said) (coming line room.old) bytes.now) }
{
    recording::record_all(line, bytes, room, output, told)
}

// The record of a last line without line feed, or what is told of it, whole.
fn record_last(line: Line, room: &[u8], output: &mut [u8], told: &mut [u8]) -> Ends
    requires record_length_in_bounds { record_length ≤ length output.old }
    requires reply_most_in_bounds { reply_most ≤ length told.old }
    ensures starts { Starts output.new result.put (last_by as_record (always said) (coming line room.now)) }
    ensures starts_2 { Starts told.new result.told (last_by as_told (always said) (coming line room.now)) }
{
    recording::record_last(line, room, output, told)
}

// Writes the first bytes of the output, and then the first of what is told.
fn write_out(
    rt: &HostRuntime,
    output: &[u8],
    count: usize,
    told: &[u8],
    tells: usize,
) -> Result<(), Failed>
    requires count_in_bounds { count ≤ length output.now }
    requires tells_in_bounds { tells ≤ length told.now }
{
    rt.stdout()
        .write_all(&output[..count])
        .map_err(Failed::Write)?;
    rt.stderr().write_all(&told[..tells]).map_err(Failed::Tell)
}

// Says on standard error what failed; who closed a pipe wants no word. Where it cannot be written, nothing is
// left to do. Each program says it for itself: the rooms below read and write only what they are lent.
fn say(rt: &HostRuntime, what: &str, e: io::Error) {
    if !matches!(e.kind(), io::ErrorKind::BrokenPipe) {
        let _ = eprintln!(rt; "journal: {what}: {e}");
    }
}
