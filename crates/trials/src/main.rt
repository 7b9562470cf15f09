// Lets reading, writing, both roads, the boundary, the account and the journal be tried from outside: a request a line
// on standard input, an answer a line on standard output. A line that is no request is answered by `?`,
// and a question by `1` for yes, `0` for no. A read or a write that fails ends the program, which says so
// on standard error.
//
//     write ROOM LAT LON SCALE E W S N NUMBER     answers NUMBER PLACE and the room's bytes
//     read TEXT                                   answers NUMBER PLACE, the fields and the sides
//     plain ROOM KIND NUMBER COORDINATE..         answers NUMBER PLACE and the room's bytes
//     quick ROOM KIND NUMBER COORDINATE..         likewise
//     meets ALAT ALON BLAT BLON WEST EAST SOUTH NORTH
//                                                 whether the edge from A to B meets the rectangle
//     odd LAT LON COORDINATE..                    whether the point has an odd count
//     inside LEVEL WEST SOUTH COORDINATE..        whether the cell is inside
//     message KIND NUMBER ACCOUNT TEXT            answers a word or a number, and the account afterwards
//     total ACCOUNT                               answers its total
//     record KIND NUMBER OFFSET PAGE TEXT         answers a number, and the page afterwards
//     look OFFSET PAGE                            answers 0, KIND, NUMBER and the code, `end` or a number
//     replay PAGE                                 answers a number, the offset, six counts and the account
#![tactic(auto)]

mod accounts;
mod codes;
mod outgoing;
mod pages;
mod questions;
mod request;
mod road;

use crate::outgoing::Outgoing;
use std::io;
use std::io::{Read, Write};

// More bytes than an answer has, with an account of 256 places in it or a page of a line: with fewer left
// the output is written.
const ANSWER: usize = 25000;

// The bytes of a read: many, for much data.
const READ: usize = 65536;

// What fails and ends the program: a read or a write.
#[derive(Drop)]
enum Failed {
    Read(io::Error),
    Write(io::Error),
}

fn main(rt: HostRuntime) {
    let mut input = [0u8; READ];
    let mut room = [0u8; lines::ROOM];
    match answer_all(&rt, &mut input, &mut room, &mut Outgoing::empty()) {
        Ok(()) => (),
        Err(Failed::Read(e)) => say(&rt, "standard input", e),
        Err(Failed::Write(e)) => say(&rt, "standard output", e),
    }
}

// Reads until the input ends. Nothing says that it does, so the reads are counted, up to a number that no
// run uses up. What waits is written before each read. A last line needs no line feed, and none starts
// after a line feed that ends the input.
fn answer_all(
    rt: &HostRuntime,
    input: &mut [u8],
    room: &mut [u8],
    out: &mut Outgoing,
) -> Result<(), Failed> {
    let mut len = 0;
    for _ in 0..u64::MAX {
        write_out(rt, out)?;
        let n = rt.stdin().read(input).map_err(Failed::Read)?;
        if n == 0 {
            break;
        }
        for byte in &input[..n] {
            len = take_byte(rt, room, len, *byte, out)?;
        }
    }
    if len > 0 {
        end_line(rt, room, len, out)?;
    }
    write_out(rt, out)
}

// Takes one byte of a line of which so many stand in the room: a line feed ends the line, any other byte
// goes into the room.
fn take_byte(
    rt: &HostRuntime,
    room: &mut [u8],
    len: usize,
    byte: u8,
    out: &mut Outgoing,
) -> Result<usize, Failed> {
    if byte == b'\n' {
        end_line(rt, room, len, out)?;
        return Ok(0);
    }
    Ok(lines::add(room, len, byte))
}

// Answers a line, and writes what waits where little room is left.
fn end_line(rt: &HostRuntime, room: &[u8], len: usize, out: &mut Outgoing) -> Result<(), Failed> {
    request::answer_line(room, len, out);
    if out.left() >= ANSWER {
        return Ok(());
    }
    write_out(rt, out)
}

// Writes what waits.
fn write_out(rt: &HostRuntime, out: &mut Outgoing) -> Result<(), Failed> {
    rt.stdout().write_all(out.waiting()).map_err(Failed::Write)?;
    out.clear();
    Ok(())
}

// Says on standard error what failed; who closed a pipe wants no word. Where it cannot be written, nothing is
// left to do. Each program says it for itself: the rooms below read and write only what they are lent.
fn say(rt: &HostRuntime, what: &str, e: io::Error) {
    if !matches!(e.kind(), io::ErrorKind::BrokenPipe) {
        let _ = eprintln!(rt; "trials: {what}: {e}");
    }
}
