// The journal page: records end to end, each 31 bytes. One is written into its own stretch of the page, and
// read at an offset. The definitions are in specs/Page.antt: writing and reading are each the other's
// reverse, which is in proofs/Reverse.antt. No offset is too large, and no page too short.
#![tactic(auto)]

ghost use Rattle.std.specs.Prelude.{◌≤◌, ◌≡◌, length};
ghost use Rattle.entitlements.specs.Entitlements.{letter_of as Entitlements·letter_of};
ghost use Rattle.room.specs.Room.{Put};
ghost use Rattle.page.specs.Known.{same_as, code_by, found_with, look_with};
ghost use Rattle.page.specs.Told.{number_of, content_with};
ghost use Rattle.page.specs.Page.{record_length, record_of, says, leaves, writing, writing_at, look_at, refusal_of, code_at};

use entitlements::Kind;
use halves::Halves;
use room::put;

// The bytes of a record.
pub const RECORD: usize = 31;

// What every record starts with.
const MARK: [u8; 2] = [0x2A, 0x2B];

// Why a record is not written (41, 42 and 51).
#[derive(Clone, Copy)]
pub enum RecordError {
    Number,
    Code,
    Short,
}

// What a record holds: a message, its code by the halves.
#[derive(Drop)]
pub struct Record {
    pub kind: Kind,
    pub code: Halves,
    pub number: u64,
}

// Why no record is found at an offset that is not the page's end (52 to 54).
#[derive(Clone, Copy)]
pub enum LookError {
    Cut,
    Mark,
    Content,
}

// The number of an answer of writing: 0 where the record was written.
pub fn written_number(answer: Result<(), RecordError>) -> u32
    ensures { result ≡ (says answer).number }
{
    match answer {
        Ok(()) => 0,
        Err(RecordError::Number) => 41,
        Err(RecordError::Code) => 42,
        Err(RecordError::Short) => 51,
    }
}

// The number of a refusal of reading, and 0 for a record and for the end.
pub fn found_number(found: Result<Option<Record>, LookError>) -> u32
    ensures { result ≡ refusal_of found }
{
    match found {
        Ok(_) => 0,
        Err(LookError::Cut) => 52,
        Err(LookError::Mark) => 53,
        Err(LookError::Content) => 54,
    }
}

// The letter of a kind. No From: the kind and its byte are both types of other crates.
fn letter_of(kind: Kind) -> u8
    ensures { result ≡ Entitlements·letter_of kind }
{
    match kind {
        Kind::Activate => b'A',
        Kind::Cancel => b'C',
    }
}

// Puts the record of a message at the start of a stretch, as much as fits, and says the position after it.
fn put_record(stretch: &mut [u8], kind: Kind, text: &[u8], number: u64) -> usize
    ensures { Put stretch.old 0 (record_of kind text.now number) result stretch.new }
{
    let letter = [letter_of(kind)];
    let mut spelled = [0u8; 8];
    letters::spell(&mut spelled, number);
    let end = put(stretch, 0, &MARK);
    let end = put(stretch, end, &letter);
    let end = put(stretch, end, text);
    put(stretch, end, &spelled)
}

// Writes the record of a message at the start of the stretch of a page that starts at its offset, or refuses
// and writes nothing.
pub fn write_record(
    stretch: &mut [u8],
    kind: Kind,
    text: &[u8],
    number: u64,
) -> Result<(), RecordError>
    ensures { leaves result stretch.new ≡ writing kind text.now number stretch.old }
{
    if number == 0 {
        return Err(RecordError::Number);
    }
    if number > entitlements::LARGEST {
        return Err(RecordError::Number);
    }
    if halves::code_in(text).is_none() {
        return Err(RecordError::Code);
    }
    if stretch.len() < RECORD {
        return Err(RecordError::Short);
    }
    put_record(stretch, kind, text, number);
    Ok(())
}

// Writes the record of a message at an offset of a page, or refuses and writes nothing. Past the page's end
// the stretch is empty.
pub fn write_at(
    page: &mut [u8],
    offset: usize,
    kind: Kind,
    text: &[u8],
    number: u64,
) -> Result<(), RecordError>
    ensures { leaves result page.new ≡ writing_at page.old offset kind text.now number }
{
    if page.len() < offset {
        return write_record(&mut page[0..0], kind, text, number);
    }
    write_record(&mut page[offset..], kind, text, number)
}

// The number that letters spell, and 0 where a byte is no letter. No Option: 0 is refused as that is (54), and
// `number_of` knows no third case.
fn number_in(text: &[u8]) -> u64
    ensures { result ≡ number_of text.now }
{
    if letters::first_other(text) < text.len() {
        return 0;
    }
    letters::number(text)
}

// Whether a text is the same as an earlier one of twenty bytes.
fn same_as(earlier: &[u8], text: &[u8]) -> bool
    ensures { result ≡ same_as earlier.now text.now }
{
    earlier.len() == 20 && text == earlier
}

// The code of a text: what is known of an earlier one that is the same, or what reading it says.
fn code_by(text: &[u8], earlier: &[u8], known: Halves) -> Option<Halves>
    ensures { result ≡ code_by earlier.now known text.now }
{
    if same_as(earlier, text) {
        return Some(known);
    }
    halves::code_in(text)
}

// What the number and the code of a record of a kind are.
fn content_by(
    kind: Kind,
    stretch: &[u8],
    earlier: &[u8],
    known: Halves,
) -> Result<Option<Record>, LookError>
    requires { record_length ≤ length stretch.now }
    ensures { result ≡ content_with (code_by earlier.now known) kind stretch.now }
{
    let number = number_in(&stretch[23..31]);
    if number == 0 {
        return Err(LookError::Content);
    }
    let code = code_by(&stretch[3..23], earlier, known).ok_or(LookError::Content)?;
    Ok(Some(Record { kind, code, number }))
}

// What is found at the start of a stretch that goes to the page's end.
fn found_by(stretch: &[u8], earlier: &[u8], known: Halves) -> Result<Option<Record>, LookError>
    ensures { result ≡ found_with (code_by earlier.now known) stretch.now }
{
    if stretch.len() < RECORD {
        return Err(LookError::Cut);
    }
    if !stretch.starts_with(&MARK) {
        return Err(LookError::Mark);
    }
    let letter = stretch[2];
    match letter {
        b'A' => content_by(Kind::Activate, stretch, earlier, known),
        b'C' => content_by(Kind::Cancel, stretch, earlier, known),
        _ => Err(LookError::Content),
    }
}

// What is found at an offset of a page by one who knows how an earlier code was read: a code of the same
// twenty bytes is not read again. At the page's end there is no record.
pub fn look_by(
    page: &[u8],
    offset: usize,
    earlier: &[u8],
    known: Halves,
) -> Result<Option<Record>, LookError>
    ensures { result ≡ look_with (code_by earlier.now known) page.now offset }
{
    if offset == page.len() {
        return Ok(None);
    }
    if page.len() < offset {
        return Err(LookError::Cut);
    }
    found_by(&page[offset..], earlier, known)
}

// What is found at an offset of a page: a record, none at the page's end, or what is refused.
pub fn look(page: &[u8], offset: usize) -> Result<Option<Record>, LookError>
    ensures { result ≡ look_at page.now offset }
{
    look_by(page, offset, b"", Halves { high: 0, low: 0 })
}

// The code of the record at an offset: its own twenty bytes in the page, and none where there is no record.
pub fn code_at(page: &[u8], offset: usize) -> &[u8]
    ensures { result.now ≡ code_at page.now offset }
{
    let Ok(Some(_)) = look(page, offset) else {
        return &page[0..0];
    };
    &page[offset + 3..offset + 23]
}
