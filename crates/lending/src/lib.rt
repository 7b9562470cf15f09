// An account lent as three arrays, its last number and its total, for callers who cannot hand one over by
// value: a message to it, and the replay of a page into it. Arrays of another length than 256 are no
// account: 40.
#![tactic(auto)]

ghost use Rattle.std.specs.Prelude.{◌≡◌, length};
ghost use Rattle.places.specs.Places.{places};
ghost use Rattle.entitlements.specs.Entitlements.{account_of, says};
ghost use Rattle.lending.specs.Lending.{is_account, answering, lends, lending, replays, replayed_into};

use entitlements::{Account, Answer, Kind};
use places::PLACES;

// What a message to a lent account is answered, by a number, and the last number and the total afterwards.
// Laid out as in C, so that callers in other languages can have it.
#[repr(C)]
#[derive(Drop)]
pub struct Lent {
    pub answer: u32,
    pub last: u64,
    pub total: u64,
}

// What the replay of a page into a lent account answers: 0 where it came to the end, the refusal at which it
// stopped (52 to 54), or 40; the offset there; how often each answer came; and the last number and the total of
// the account. After 40 every other number is 0. Laid out as in C, too.
#[repr(C)]
#[derive(Drop)]
pub struct LentReplay {
    pub refusal: u32,
    pub offset: usize,
    pub activated: u64,
    pub already: u64,
    pub cancelled: u64,
    pub inactive: u64,
    pub old: u64,
    pub full: u64,
    pub last: u64,
    pub total: u64,
}

// The number of an answer: 1 to 5 by the words, a refusal's own otherwise.
fn answer_code(answer: Answer) -> u32
    ensures { answering result ≡ says answer }
{
    match answer {
        Answer::Activated => 1,
        Answer::Already => 2,
        Answer::Cancelled => 3,
        Answer::NotActive => 4,
        Answer::Old => 5,
        Answer::Account => 40,
        Answer::Number => 41,
        Answer::Code => 42,
        Answer::Full => 43,
    }
}

// Whether what is lent has 256 places.
fn is_account(high: &[u64], low: &[u64], active: &[u64]) -> bool
    ensures { result ≡ is_account high.now low.now active.now }
{
    high.len() == PLACES && low.len() == PLACES && active.len() == PLACES
}

// A lent account by value.
fn taken_in(high: &[u64], low: &[u64], active: &[u64], last: u64, total: u64) -> Account
    requires high_len { length high.now ≡ places }
    requires low_len { length low.now ≡ places }
    requires active_len { length active.now ≡ places }
    ensures { result ≡ account_of high.now low.now active.now last total }
{
    let mut account = entitlements::empty();
    account.high.copy_from_slice(high);
    account.low.copy_from_slice(low);
    account.active.copy_from_slice(active);
    account.last = last;
    account.total = total;
    account
}

// Sends a message to a lent account, of any lengths.
pub fn send_lent(
    kind: Kind,
    high: &mut [u64],
    low: &mut [u64],
    active: &mut [u64],
    last: u64,
    total: u64,
    text: &[u8],
    number: u64,
) -> Lent
    ensures { lends result high.new low.new active.new ≡ lending kind high.old low.old active.old last total text.now number }
{
    if !is_account(high, low, active) {
        return Lent {
            answer: 40,
            last,
            total,
        };
    }
    let answered = message::send(kind, taken_in(high, low, active, last, total), text, number);
    let next = answered.account;
    high.copy_from_slice(&next.high);
    low.copy_from_slice(&next.low);
    active.copy_from_slice(&next.active);
    Lent {
        answer: answer_code(answered.answer),
        last: next.last,
        total: next.total,
    }
}

// Replays a page from an empty account into arrays of any lengths. What an account of the right lengths held
// before is overwritten.
pub fn replay_lent(page: &[u8], high: &mut [u64], low: &mut [u64], active: &mut [u64]) -> LentReplay
    ensures { replays result high.new low.new active.new ≡ replayed_into high.old low.old active.old page.now }
{
    if !is_account(high, low, active) {
        return LentReplay {
            refusal: 40,
            offset: 0,
            activated: 0,
            already: 0,
            cancelled: 0,
            inactive: 0,
            old: 0,
            full: 0,
            last: 0,
            total: 0,
        };
    }
    let replayed = replaying::replay(page);
    let counts = replayed.counts;
    let account = replayed.account;
    high.copy_from_slice(&account.high);
    low.copy_from_slice(&account.low);
    active.copy_from_slice(&account.active);
    LentReplay {
        refusal: replayed.refusal,
        offset: replayed.offset,
        activated: counts.activated,
        already: counts.already,
        cancelled: counts.cancelled,
        inactive: counts.inactive,
        old: counts.old,
        full: counts.full,
        last: account.last,
        total: account.total,
    }
}
