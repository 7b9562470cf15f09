// The program over the journal page of document 02, request 6: a page on standard input, the summary of
// its replay from an empty account on standard output.
//
// What is written is decided in `replaying` and `summary`; here bytes only come in and go out. The page is
// read straight to where it is replayed. One that is too long is refused whole. That is said on standard
// error, and so is a read or a write that fails, and then nothing more is written.
#![tactic(auto)]

ghost use Rattle.std.specs.Prelude.{◌≤◌, ◌<◌, length, IfOk};
ghost use Rattle.output.specs.Written.{Starts};
ghost use Rattle.replaying.specs.Replay.{replayed};
ghost use Rattle.summary.specs.Summary.{summary_of};
ghost use Rattle.summary.specs.SummaryLaws.{summary_most};

use std::io;
use std::io::{Read, Write};

// The most bytes of a page.
const MOST: usize = 1048576;

// One more, so that a longer page shows.
const PAGE: usize = MOST + 1;

// What fails and ends the program: a read, a write, or a page that is too long.
#[derive(Drop)]
enum Failed {
    Read(io::Error),
    Write(io::Error),
    TooLong,
}

fn main(rt: HostRuntime) {
    let mut page = [0u8; PAGE];
    let mut output = [0u8; summary::MOST];
    match run(&rt, &mut page, &mut output) {
        Ok(()) => (),
        Err(Failed::Read(e)) => say(&rt, "standard input", e),
        Err(Failed::Write(e)) => say(&rt, "standard output", e),
        Err(Failed::TooLong) => {
            let _ = eprintln!(rt; "replay: the page has more than 1048576 bytes");
        }
    }
}

// Reads a page, and writes the summary of its replay. There is room for more than a page may have, so that
// none is cut.
fn run(rt: &HostRuntime, page: &mut [u8], output: &mut [u8]) -> Result<(), Failed>
    requires in_bounds { 1048576 < length page.old }
    requires summary_most_in_bounds { summary_most ≤ length output.old }
{
    let len = fill(rt, page).map_err(Failed::Read)?;
    if len > MOST {
        return Err(Failed::TooLong);
    }
    let count = tell(&page[..len], output);
    rt.stdout()
        .write_all(&output[..count])
        .map_err(Failed::Write)
}

// Reads until the input ends or the page is full, and says how many bytes of it stand at the page's start. A
// read that brings nothing is the end, so that each other fills some of the page.
fn fill(rt: &HostRuntime, page: &mut [u8]) -> io::Result<usize>
    ensures { IfOk result (λ len. len ≤ length page.new) }
{
    let mut len = 0;
    while len < page.len() {
        let n = rt.stdin().read(&mut page[len..])?;
        if n == 0 {
            break;
        }
        len += n;
    }
    Ok(len)
}

// The summary of the replay of a page, whole, at the start of the output.
fn tell(page: &[u8], output: &mut [u8]) -> usize
    requires { summary_most ≤ length output.old }
    ensures { Starts output.new result (summary_of (replayed page.now)) }
{
    let replayed = replaying::replay(page);
    summary::put_summary(replayed, output)
}

// Says on standard error what failed; who closed a pipe wants no word. Where it cannot be written, nothing is
// left to do. Each program says it for itself: the rooms below read and write only what they are lent.
fn say(rt: &HostRuntime, what: &str, e: io::Error) {
    if !matches!(e.kind(), io::ErrorKind::BrokenPipe) {
        let _ = eprintln!(rt; "replay: {what}: {e}");
    }
}
