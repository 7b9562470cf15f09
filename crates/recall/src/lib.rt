// Codes that were read before: for each slot a record whose code was read, with its halves, so that a later
// code of the same twenty bytes is not read again. A slot is a guess, which is compared before it is used: a
// wrong one costs time and never an answer, which is in specs/RecallLaws.antt.
#![tactic(auto)]

ghost use Rattle.std.specs.Prelude.{◌≡◌, ◌<◌, ◌≤◌, slice_index};
ghost use Rattle.recall.specs.Recall.{slot_count, text_at, slot_of, earlier_at, recalled, remembered, after_of};

use halves::Halves;
use page::{LookError, RECORD, Record};

// How many codes are remembered at most.
pub const SLOTS: usize = 4096;

// What a slot has: a record by its offset and one more, where 0 is none, and the halves of its code. No
// Option: `after_of` and `earlier_at` speak of that number, and so do the laws of them.
#[derive(Clone, Copy)]
pub struct Slot {
    pub after: u64,
    pub code: Halves,
}

// A slot that has no record.
pub const EMPTY: Slot = Slot {
    after: 0,
    code: Halves { high: 0, low: 0 },
};

// The twenty bytes of the code of a record at an offset, and none where the page has not the record's bytes.
fn text_at(page: &[u8], offset: usize) -> &[u8]
    ensures { result.now ≡ text_at page.now offset }
{
    if page.len() < RECORD {
        return &page[0..0];
    }
    if page.len() - RECORD < offset {
        return &page[0..0];
    }
    &page[offset + 3..offset + 23]
}

// The code of the record that a slot has, by its offset and one more: none where the slot is empty.
fn earlier_at(page: &[u8], after: u64) -> &[u8]
    ensures { result.now ≡ earlier_at page.now after }
{
    if after == 0 {
        return &page[0..0];
    }
    text_at(page, (after - 1) as usize)
}

// The byte of a text at an index as a number that can be reckoned with, and 0 past its end.
fn byte_at(text: &[u8], i: usize) -> usize
    ensures value { result ≡ slice_index text.now i }
    ensures upper_bound { result ≤ 255 }
{
    text.get(i).copied().unwrap_or(0) as usize
}

// The slot of a code's bytes: letters of the location and of the unit number, which tell most codes apart.
fn slot_of(text: &[u8]) -> usize
    ensures value { result ≡ slot_of text.now }
    ensures upper_bound { result < slot_count }
{
    let place = byte_at(text, 6) * 1289 + byte_at(text, 7) * 331 + byte_at(text, 8) * 79;
    let number = byte_at(text, 9) * 19 + byte_at(text, 18) * 157 + byte_at(text, 19) * 37;
    (place + number) % SLOTS
}

// What is found at an offset of a page by one who remembers codes.
pub fn look(page: &[u8], offset: usize, slots: &[Slot; SLOTS]) -> Result<Option<Record>, LookError>
    ensures { result ≡ recalled slots.now page.now offset }
{
    let slot = slots[slot_of(text_at(page, offset))];
    page::look_by(page, offset, earlier_at(page, slot.after), slot.code)
}

// Remembers the code of a record at an offset, with its halves.
pub fn note(page: &[u8], offset: usize, code: Halves, slots: &mut [Slot; SLOTS])
    ensures { slots.new ≡ remembered slots.old page.now offset code }
{
    let after = (offset as u64).wrapping_add(1);
    slots[slot_of(text_at(page, offset))] = Slot { after, code };
}
