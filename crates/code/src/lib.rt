// The twenty characters: the fields of a code, and what writing and reading answer. The
// definitions of writing and reading are in specs/Code.antt; `writer` and `reader` do the work.
#![tactic(auto)]

ghost use Rattle.std.specs.Prelude.{◌≡◌};
ghost use Rattle.code.specs.Code.{outside as Code·outside, says, tells, misspelled};

use ground::{Point, Rectangle};
use spelling::Misspelled;

// The fields of a code: its reference, scale, the four spans in the order E, W, S, N, and the
// unit number. Laid out as in C, so that callers in other languages can have them.
#[repr(C)]
#[derive(Clone, Copy)]
pub struct Fields {
    pub reference: Point,
    pub scale: u32,
    pub east: u32,
    pub west: u32,
    pub south: u32,
    pub north: u32,
    pub number: u32,
}

// The finest level that a scale has.
pub const FINEST_SCALE: u32 = 27;

// Why fields are not written (21 to 25).
#[derive(Clone, Copy)]
pub enum WriteError {
    Output,
    Reference,
    Scale,
    Span,
    Number,
}

// What an accepted text tells: the fields of its code, and their rectangle.
#[derive(Clone, Copy)]
pub struct Reading {
    pub fields: Fields,
    pub rectangle: Rectangle,
}

// Why a text is not read (11 to 18); a letter that is none is named by its place.
#[derive(Clone, Copy)]
pub enum ReadError {
    Length,
    Letter(u32),
    Closing,
    Hemisphere,
    Degrees,
    Sixty,
    Scale,
    Span,
}

// A text that spells no numbers is refused by the same number and place.
impl From<Misspelled> for ReadError {
    ghost from_gives = { λ text error. error ≡ misspelled text };

    fn from(text: Misspelled) -> ReadError {
        match text {
            Misspelled::Length => ReadError::Length,
            Misspelled::Letter(byte) => ReadError::Letter(byte),
        }
    }
}

// The number of an answer of writing. Functions and no From: docs/STATEMENTS.md names these three.
pub fn written_number(answer: Result<(), WriteError>) -> u32
    ensures { result ≡ (says answer).number }
{
    match answer {
        Ok(()) => 0,
        Err(WriteError::Output) => 21,
        Err(WriteError::Reference) => 22,
        Err(WriteError::Scale) => 23,
        Err(WriteError::Span) => 24,
        Err(WriteError::Number) => 25,
    }
}

// The number of an answer of reading.
pub fn reading_number(answer: Result<Reading, ReadError>) -> u32
    ensures { result ≡ (tells answer).said.number }
{
    match answer {
        Ok(_) => 0,
        Err(ReadError::Length) => 11,
        Err(ReadError::Letter(_)) => 12,
        Err(ReadError::Closing) => 13,
        Err(ReadError::Hemisphere) => 14,
        Err(ReadError::Degrees) => 15,
        Err(ReadError::Sixty) => 16,
        Err(ReadError::Scale) => 17,
        Err(ReadError::Span) => 18,
    }
}

// The place of an answer of reading: the first byte that is no letter, or 0.
pub fn reading_place(answer: Result<Reading, ReadError>) -> u32
    ensures { result ≡ (tells answer).said.place }
{
    match answer {
        Ok(_) => 0,
        Err(ReadError::Length) => 0,
        Err(ReadError::Letter(byte)) => byte,
        Err(ReadError::Closing) => 0,
        Err(ReadError::Hemisphere) => 0,
        Err(ReadError::Degrees) => 0,
        Err(ReadError::Sixty) => 0,
        Err(ReadError::Scale) => 0,
        Err(ReadError::Span) => 0,
    }
}

// Whether a number is outside a range, ends included.
pub fn outside(least: u32, most: u32, x: u32) -> bool
    ensures { result ≡ Code·outside least most x }
{
    x < least || most < x
}
