// Journal pages: the answers to `record KIND NUMBER OFFSET PAGE TEXT`, to `look OFFSET PAGE` and to `replay
// PAGE`. PAGE is hexadecimal, two digits a byte, and `-` where it is empty; it ends at a space or at the
// line's end.
ghost use Rattle.std.specs.Prelude.{◌≤◌, ◌*◌, length, IfSome};

use crate::accounts::{number_after_space, past_space, put_account};
use crate::outgoing::Outgoing;
use entitlements::Kind;
use page::Record;
use replaying::Counts;

// More bytes than the page of a line has: each takes two digits.
const MOST: usize = lines::LONGEST / 2;

// The digits of a byte by their values.
const DIGITS: [u8; 16] = *b"0123456789ABCDEF";

// `record KIND NUMBER OFFSET PAGE TEXT`: the text is the rest of the line after one more space.
pub(crate) fn answer_record(text: &[u8], out: &mut Outgoing) -> Option<()> {
    if lines::starts(text, b"record A ") {
        return record(Kind::Activate, text, out);
    }
    if lines::starts(text, b"record C ") {
        return record(Kind::Cancel, text, out);
    }
    None
}

fn record(kind: Kind, text: &[u8], out: &mut Outgoing) -> Option<()> {
    let (number, end) = numbers::long_at(text, 9)?;
    let (offset, end) = number_after_space(text, end)?;
    let mut room = [0u8; MOST];
    let (len, end) = page_at(text, end, &mut room)?;
    let start = past_space(text, end)?;
    let page = &mut room[..len];
    let answer = page::write_at(page, offset as usize, kind, &text[start..], number);
    out.put_decimal(page::written_number(answer) as u64);
    out.put(b" ");
    put_page(page, out);
    Some(())
}

// `look OFFSET PAGE`.
pub(crate) fn answer_look(text: &[u8], out: &mut Outgoing) -> Option<()> {
    let (offset, end) = numbers::long_at(text, 5)?;
    let mut room = [0u8; MOST];
    let (len, end) = page_at(text, end, &mut room)?;
    if end != text.len() {
        return None;
    }
    look_in(&room[..len], offset as usize, out);
    Some(())
}

// Looks at an offset: the record's kind and number, with the code's own bytes in the page.
fn look_in(page: &[u8], offset: usize, out: &mut Outgoing) {
    let looked = page::look(page, offset);
    match looked {
        Ok(Some(record)) => put_record(record, page::code_at(page, offset), out),
        Ok(None) => out.put(b"end"),
        Err(_) => out.put_decimal(page::found_number(looked) as u64),
    }
}

fn put_record(record: Record, code: &[u8], out: &mut Outgoing) {
    match record.kind {
        Kind::Activate => out.put(b"0 A"),
        Kind::Cancel => out.put(b"0 C"),
    }
    out.put_number(record.number);
    out.put(b" ");
    out.put(code);
}

// `replay PAGE`.
pub(crate) fn answer_replay(text: &[u8], out: &mut Outgoing) -> Option<()> {
    let mut room = [0u8; MOST];
    let (len, end) = page_at(text, 6, &mut room)?;
    if end != text.len() {
        return None;
    }
    replay_in(&room[..len], out);
    Some(())
}

fn replay_in(page: &[u8], out: &mut Outgoing) {
    let replayed = replaying::replay(page);
    out.put_decimal(replayed.refusal as u64);
    out.put_number(replayed.offset as u64);
    put_counts(replayed.counts, out);
    put_account(&replayed.account, out);
}

fn put_counts(counts: Counts, out: &mut Outgoing) {
    out.put_number(counts.activated);
    out.put_number(counts.already);
    out.put_number(counts.cancelled);
    out.put_number(counts.inactive);
    out.put_number(counts.old);
    out.put_number(counts.full);
}

// Puts a page, two digits a byte.
fn put_page(page: &[u8], out: &mut Outgoing) {
    if page.is_empty() {
        out.put(b"-");
    }
    for byte in page {
        let digits = [DIGITS[(*byte / 16) as usize], DIGITS[(*byte % 16) as usize]];
        out.put(&digits);
    }
}

// The byte of two hexadecimal digits.
fn paired(high: u8, low: u8) -> Option<u8> {
    let high = char::from(high).to_digit(16)?;
    let low = char::from(low).to_digit(16)?;
    u8::try_from(high * 16 + low).ok()
}

// Puts the bytes of the digits that a text starts with into a room, and counts them.
fn fill(digits: &[u8], page: &mut [u8]) -> usize
    ensures fits { result ≤ length page.new }
    ensures pairs { 2 * result ≤ length digits.now }
{
    let most = page.len().min(digits.len() / 2);
    for i in 0..most {
        let Some(value) = paired(digits[2 * i], digits[2 * i + 1]) else {
            return i;
        };
        page[i] = value;
    }
    most
}

// The page that stands after one space at a position: how many bytes of the room it has, and the position
// after it.
fn page_at(text: &[u8], at: usize, page: &mut [u8]) -> Option<(usize, usize)>
    ensures { IfSome result (λ stated. stated.0 ≤ length page.new) }
{
    let start = past_space(text, at)?;
    let len = fill(&text[start..], page);
    if len > 0 {
        return ended(text, len, start + 2 * len);
    }
    if start < text.len() && text[start] == b'-' {
        return ended(text, 0, start + 1);
    }
    None
}

// A page of so many bytes that ends at a space or at the line's end.
fn ended(text: &[u8], len: usize, end: usize) -> Option<(usize, usize)>
    ensures { IfSome result (λ stated. stated.0 ≤ len) }
{
    if end < text.len() && text[end] != b' ' {
        return None;
    }
    Some((len, end))
}
