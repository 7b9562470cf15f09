// Messages to an account and its total: the answers to `message KIND NUMBER ACCOUNT TEXT` and to `total
// ACCOUNT`. ACCOUNT is `LAST TOTAL COUNT` and then for each of COUNT places `PLACE ACTIVE HIGH LOW`,
// places rising; those that are not listed are all 0.
ghost use Rattle.std.specs.Prelude.{◌≤◌, length, IfSome};

use crate::outgoing::Outgoing;
use entitlements::{Account, Answer, Kind};
use places::PLACES;

pub(crate) fn answer(text: &[u8], out: &mut Outgoing) -> Option<()> {
    if lines::starts(text, b"message A ") {
        return answer_message(Kind::Activate, text, out);
    }
    if lines::starts(text, b"message C ") {
        return answer_message(Kind::Cancel, text, out);
    }
    None
}

// The answer to a request for the total, which the account ends.
pub(crate) fn answer_total(text: &[u8], out: &mut Outgoing) -> Option<()> {
    let (account, end) = account_at(text, 5)?;
    if end != text.len() {
        return None;
    }
    out.put_decimal(entitlements::total(account));
    Some(())
}

// The answer to a message, whose text is the rest of the line after one more space.
fn answer_message(kind: Kind, text: &[u8], out: &mut Outgoing) -> Option<()> {
    let (number, end) = numbers::long_at(text, 10)?;
    let (account, end) = account_at(text, end)?;
    let start = past_space(text, end)?;
    let answered = message::send(kind, account, &text[start..], number);
    put_answer(answered.answer, out);
    put_account(&answered.account, out);
    Some(())
}

// The position after the space that stands at a position.
pub(crate) fn past_space(text: &[u8], at: usize) -> Option<usize>
    ensures { IfSome result (λ start. start ≤ length text.now) }
{
    if at < text.len() && text[at] == b' ' {
        return Some(at + 1);
    }
    None
}

// The number that stands after one space at a position, and the position after it.
pub(crate) fn number_after_space(text: &[u8], at: usize) -> Option<(u64, usize)> {
    numbers::long_at(text, past_space(text, at)?)
}

// The account that stands at a position, and the position after it.
fn account_at(text: &[u8], at: usize) -> Option<(Account, usize)> {
    let (last, end) = number_after_space(text, at)?;
    let (total, end) = number_after_space(text, end)?;
    let (count, end) = number_after_space(text, end)?;
    let mut account = Account {
        last,
        total,
        ..entitlements::empty()
    };
    let end = fill(count, text, end, &mut account)?;
    Some((account, end))
}

// Fills in the places that a request lists, and says the position after them.
fn fill(count: u64, text: &[u8], from: usize, account: &mut Account) -> Option<usize> {
    let mut least = 0;
    let mut at = from;
    for _ in 0..count {
        let (next, end) = fill_place(least, text, at, account)?;
        least = next;
        at = end;
    }
    Some(at)
}

// Fills in one place, from a lowest one that may come on, and says the lowest that may come next, and the
// position after it.
fn fill_place(least: u64, text: &[u8], at: usize, account: &mut Account) -> Option<(u64, usize)> {
    let (place, end) = number_after_space(text, at)?;
    if place < least || place >= PLACES as u64 {
        return None;
    }
    let (active, end) = number_after_space(text, end)?;
    let (high, end) = number_after_space(text, end)?;
    let (low, end) = number_after_space(text, end)?;
    account.active[place as usize] = active;
    account.high[place as usize] = high;
    account.low[place as usize] = low;
    Some((place + 1, end))
}

// Puts an account as a request states it, after a space.
pub(crate) fn put_account(account: &Account, out: &mut Outgoing) {
    out.put_number(account.last);
    out.put_number(account.total);
    out.put_number(count_listed(account));
    for place in 0..PLACES {
        let (active, high, low) = (
            account.active[place],
            account.high[place],
            account.low[place],
        );
        if is_listed(active, high, low) {
            out.put_number(place as u64);
            out.put_number(active);
            out.put_number(high);
            out.put_number(low);
        }
    }
}

// How many places are listed.
fn count_listed(account: &Account) -> u64 {
    let mut count = 0;
    for place in 0..PLACES {
        if is_listed(
            account.active[place],
            account.high[place],
            account.low[place],
        ) {
            count += 1;
        }
    }
    count
}

// Whether a place is listed: its activity or a half is not 0.
fn is_listed(active: u64, high: u64, low: u64) -> bool {
    active != 0 || high != 0 || low != 0
}

fn put_answer(answer: Answer, out: &mut Outgoing) {
    match answer {
        Answer::Activated => out.put(b"activated"),
        Answer::Already => out.put(b"already"),
        Answer::Cancelled => out.put(b"cancelled"),
        Answer::NotActive => out.put(b"not-active"),
        Answer::Old => out.put(b"old"),
        _ => out.put_decimal(entitlements::answer_number(answer) as u64),
    }
}
