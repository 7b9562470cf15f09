// The listing program of document 01: a unit a line on standard input, a reply a line on standard
// output.
//
// What is written is decided in `register`; here bytes only come in and go out. The replies of a read
// are written before the next read, in one piece. A read or a write that fails ends the program, which
// says so on standard error.
#![tactic(auto)]

ghost use Rattle.std.specs.Prelude.{◌*◌, ◌≤◌, ◌<◌, ◌≡◌, length};
ghost use Rattle.lines.specs.Lines.{longest};
ghost use Rattle.lines.specs.Answers.{always};
ghost use Rattle.lines.specs.Automaton.{after, ended, last};
ghost use Rattle.lines.specs.ReplyLaws.{reply_most};
ghost use Rattle.output.specs.Written.{Starts};
ghost use Rattle.register.specs.Said.{said, coming};

use register::{Line, Listed};
use std::io;
use std::io::{Read, Write};

// The most bytes of one read.
const READ: usize = 32768;

// Room for a reply to each byte of a read, which may all be line feeds.
const WRITTEN: usize = READ * lines::REPLY;

// What fails and ends the program: a read or a write.
#[derive(Drop)]
enum Failed {
    Read(io::Error),
    Write(io::Error),
}

fn main(rt: HostRuntime) {
    let mut input = [0u8; READ];
    let mut room = [0u8; lines::ROOM];
    let mut output = [0u8; WRITTEN];
    match list(&rt, &mut input, &mut room, &mut output) {
        Ok(()) => (),
        Err(Failed::Read(e)) => say(&rt, "standard input", e),
        Err(Failed::Write(e)) => say(&rt, "standard output", e),
    }
}

// Reads until the input ends. Nothing says that it does, so the reads are counted, up to a number that no
// run uses up. The room is longer than a line may be, as the law of the whole output asks.
fn list(
    rt: &HostRuntime,
    input: &mut [u8],
    room: &mut [u8],
    output: &mut [u8],
) -> Result<(), Failed>
    requires input_nonzero { 0 < length input.old }
    requires longest_in_bounds { longest < length room.old }
    requires reply_most_in_bounds { length input.old * reply_most ≤ length output.old }
{
    let mut line = Line { number: 1, len: 0 };
    for _ in 0..u64::MAX {
        let n = rt.stdin().read(input).map_err(Failed::Read)?;
        if n == 0 {
            let put = reply_last(line, room, output);
            return write_out(rt, output, put);
        }
        let listed = reply_all(line, &input[..n], room, output);
        write_out(rt, output, listed.put)?;
        line = listed.line;
    }
    Ok(())
}

// The replies to the lines that end in the bytes of a read, all of them, at the start of the output.
fn reply_all(line: Line, bytes: &[u8], room: &mut [u8], output: &mut [u8]) -> Listed
    requires { length bytes.now * reply_most ≤ length output.old }
    ensures room_after { coming result.line room.new ≡ after (always said) (coming line room.old) bytes.now }
    ensures starts { Starts output.new result.put (ended (always said) (coming line room.old) bytes.now) }
{
    register::reply_all(line, bytes, room, output)
}

// The reply to a last line without line feed, whole, at the start of the output.
fn reply_last(line: Line, room: &[u8], output: &mut [u8]) -> usize
    requires { reply_most ≤ length output.old }
    ensures { Starts output.new result (last (always said) (coming line room.now)) }
{
    register::reply_last(line, room, output)
}

// Writes the first bytes of the output.
fn write_out(rt: &HostRuntime, output: &[u8], count: usize) -> Result<(), Failed>
    requires { count ≤ length output.now }
{
    rt.stdout()
        .write_all(&output[..count])
        .map_err(Failed::Write)
}

// Says on standard error what failed; who closed a pipe wants no word. Where it cannot be written, nothing is
// left to do. Each program says it for itself: the rooms below read and write only what they are lent.
fn say(rt: &HostRuntime, what: &str, e: io::Error) {
    if !matches!(e.kind(), io::ErrorKind::BrokenPipe) {
        let _ = eprintln!(rt; "listing: {what}: {e}");
    }
}
