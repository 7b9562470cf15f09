// The library for other languages: coding by either road, reading, writing, the two messages to an account,
// and the journal page, whose records are written, looked at and replayed, under C's names. Each function
// hands its input to the crate that does the work and says the reply in numbers. The definitions are in
// specs/: the replies in Replies.antt, their laws in Replying.antt, and in Once.antt that no second reply
// would do. An account crosses as three lent arrays, its last number and its total, which a caller asks by
// looking at it: for that they are in `lending`. A part of a page does not cross: the caller has the page.
#![tactic(auto)]

ghost use Rattle.std.specs.Prelude.{◌≡◌};
ghost use Rattle.replies.specs.Replies.{refused as Replies·refused};
ghost use Rattle.code.specs.Code.{reading, writing, tells as Code·tells, tells_nothing};
ghost use Rattle.unit.specs.Unit.{kind_of, coding};
ghost use Rattle.unit.specs.Frame.{says};
ghost use Rattle.entitlements.specs.declared.Kind.TheVariants.{Activate, Cancel};
ghost use Rattle.entitlements.specs.Entitlements.{letter_of as Entitlements·letter_of};
ghost use Rattle.page.specs.Page.{writing_at, look_at};
ghost use Rattle.lending.specs.Lending.{lends, lending, replays, replayed_into};
ghost use Rattle.ffi.specs.Replies.{said, leaves, tells, looked_of};

use code::{Fields, ReadError};
use ground::{Lat, Lon, Point, Rectangle};
use lending::{Lent, LentReplay};
use page::{LookError, Record};
use unit::Refusal;

// What coding and writing answer: 0 and 0, or the number and the place of a refusal.
#[repr(C)]
#[derive(Drop)]
pub struct Reply {
    pub number: u32,
    pub place: u32,
}

// The kind of a unit by the listing's letter: `B` is a building, and every other byte is other kind. It is a
// letter, and the answers below are numbers, for C, which has no enums like Rattle's.
#[repr(C)]
#[derive(Drop)]
pub struct Kind {
    pub letter: u8,
}

// What reading answers: the reply, the fields and the rectangle; all of these are 0 after a refusal.
#[repr(C)]
#[derive(Drop)]
pub struct Reading {
    pub reply: Reply,
    pub fields: Fields,
    pub rectangle: Rectangle,
}

// What a look at an offset of a page answers: 0 for a record, 1 at the page's end, or a refusal (52 to 54);
// the letter of the message, `A` or `C`, and its number, which are 0 where there is no record.
#[repr(C)]
#[derive(Drop)]
pub struct Looked {
    pub answer: u32,
    pub letter: u32,
    pub number: u64,
}

// An answer of coding in numbers.
fn coded(answer: Result<(), Refusal>) -> Reply
    ensures { said result ≡ says answer }
{
    Reply {
        number: unit::coded_number(answer),
        place: unit::coded_place(answer),
    }
}

// Codes a unit by the quick road, for all inputs: writes bytes 0 to 19 of the room, or refuses and
// writes nothing.
#[unsafe(no_mangle)]
pub extern "C" fn linenspruce_code_quick(
    room: &mut [u8],
    numbers: &[u32],
    kind: Kind,
    number: u32,
) -> Reply
    ensures { leaves result room.new ≡ coding room.old numbers.now (kind_of kind.letter) number }
{
    coded(quick::code(room, numbers, unit::kind_of(kind.letter), number))
}

// The same by the plain road, which takes very long with a large thin unit.
#[unsafe(no_mangle)]
pub extern "C" fn linenspruce_code_plain(
    room: &mut [u8],
    numbers: &[u32],
    kind: Kind,
    number: u32,
) -> Reply
    ensures { leaves result room.new ≡ coding room.old numbers.now (kind_of kind.letter) number }
{
    coded(plain::code(room, numbers, unit::kind_of(kind.letter), number))
}

// A refusal of reading: its reply, and 0 everywhere else.
fn refused(reply: Reply) -> Reading
    ensures { tells result ≡ tells_nothing (said reply) }
{
    Reading {
        reply,
        fields: Fields {
            reference: Point {
                lat: Lat(0),
                lon: Lon(0),
            },
            scale: 0,
            east: 0,
            west: 0,
            south: 0,
            north: 0,
            number: 0,
        },
        rectangle: Rectangle {
            west: Lon(0),
            east: Lon(0),
            south: Lat(0),
            north: Lat(0),
        },
    }
}

// An answer of reading in numbers.
fn told(answer: Result<code::Reading, ReadError>) -> Reading
    ensures { tells result ≡ Code·tells answer }
{
    let reply = Reply {
        number: code::reading_number(answer),
        place: code::reading_place(answer),
    };
    match answer {
        Ok(reading) => Reading {
            reply,
            fields: reading.fields,
            rectangle: reading.rectangle,
        },
        Err(_) => refused(reply),
    }
}

// Reads a text of any length and any bytes.
#[unsafe(no_mangle)]
pub extern "C" fn linenspruce_read(text: &[u8]) -> Reading
    ensures { tells result ≡ reading text.now }
{
    told(reader::read(text))
}

// A reply by its number, where no place is named.
fn no_place(number: u32) -> Reply
    ensures { said result ≡ Replies·refused number 0 }
{
    Reply { number, place: 0 }
}

// Writes the code of fields into bytes 0 to 19 of a room, or refuses and writes nothing.
#[unsafe(no_mangle)]
pub extern "C" fn linenspruce_write(room: &mut [u8], fields: Fields) -> Reply
    ensures { leaves result room.new ≡ writing room.old fields }
{
    let answer = writer::write(room, fields);
    no_place(code::written_number(answer))
}

// Activates a code in a lent account: answers by number, and leaves the account afterwards in the arrays,
// of which every length is answered.
#[unsafe(no_mangle)]
pub extern "C" fn linenspruce_activate(
    high: &mut [u64],
    low: &mut [u64],
    active: &mut [u64],
    last: u64,
    total: u64,
    text: &[u8],
    number: u64,
) -> Lent
    ensures { lends result high.new low.new active.new ≡ lending Activate high.old low.old active.old last total text.now number }
{
    let activate = entitlements::Kind::Activate;
    lending::send_lent(activate, high, low, active, last, total, text, number)
}

// Cancels a code, likewise.
#[unsafe(no_mangle)]
pub extern "C" fn linenspruce_cancel(
    high: &mut [u64],
    low: &mut [u64],
    active: &mut [u64],
    last: u64,
    total: u64,
    text: &[u8],
    number: u64,
) -> Lent
    ensures { lends result high.new low.new active.new ≡ lending Cancel high.old low.old active.old last total text.now number }
{
    let cancel = entitlements::Kind::Cancel;
    lending::send_lent(cancel, high, low, active, last, total, text, number)
}

// Writes the record of an activation at an offset of a page, 31 bytes, or refuses and writes nothing. Every
// length and every offset is answered.
#[unsafe(no_mangle)]
pub extern "C" fn linenspruce_record_activation(
    page: &mut [u8],
    offset: usize,
    text: &[u8],
    number: u64,
) -> Reply
    ensures { leaves result page.new ≡ writing_at page.old offset Activate text.now number }
{
    let activation = entitlements::Kind::Activate;
    let answer = page::write_at(page, offset, activation, text, number);
    no_place(page::written_number(answer))
}

// Writes the record of a cancellation, likewise.
#[unsafe(no_mangle)]
pub extern "C" fn linenspruce_record_cancellation(
    page: &mut [u8],
    offset: usize,
    text: &[u8],
    number: u64,
) -> Reply
    ensures { leaves result page.new ≡ writing_at page.old offset Cancel text.now number }
{
    let cancellation = entitlements::Kind::Cancel;
    let answer = page::write_at(page, offset, cancellation, text, number);
    no_place(page::written_number(answer))
}

// The letter of a message.
fn letter_of(kind: entitlements::Kind) -> u32
    ensures { result ≡ Entitlements·letter_of kind }
{
    match kind {
        entitlements::Kind::Activate => 65,
        entitlements::Kind::Cancel => 67,
    }
}

// What is found, in numbers.
fn seen(found: Result<Option<Record>, LookError>) -> Looked
    ensures { result ≡ looked_of found }
{
    match found {
        Ok(Some(record)) => Looked {
            answer: 0,
            letter: letter_of(record.kind),
            number: record.number,
        },
        Ok(None) => Looked {
            answer: 1,
            letter: 0,
            number: 0,
        },
        Err(_) => Looked {
            answer: page::found_number(found),
            letter: 0,
            number: 0,
        },
    }
}

// Looks at the record at an offset of a page. Where there is one, its code's own twenty bytes are in the page
// from three bytes after the offset on.
#[unsafe(no_mangle)]
pub extern "C" fn linenspruce_look(page: &[u8], offset: usize) -> Looked
    ensures { result ≡ looked_of (look_at page.now offset) }
{
    seen(page::look(page, offset))
}

// Replays a page from an empty account into lent arrays, of which every length is answered.
#[unsafe(no_mangle)]
pub extern "C" fn linenspruce_replay(
    page: &[u8],
    high: &mut [u64],
    low: &mut [u64],
    active: &mut [u64],
) -> LentReplay
    ensures { replays result high.new low.new active.new ≡ replayed_into high.old low.old active.old page.now }
{
    lending::replay_lent(page, high, low, active)
}
