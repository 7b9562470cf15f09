// Replay of a journal page from an empty account: the account, and how often each answer came, are those
// of sending the page's messages one by one. The definitions are in specs/Replay.antt.
//
// The account stays where it is, and a record changes one place of it. It is not tested as a whole, 40: from
// the empty one on that is proved to be unnecessary. An index beside it finds the place of a record's code.
#![tactic(auto)]

ghost use Rattle.std.specs.Prelude.{◌≡◌, []};
ghost use Rattle.replaying.specs.Replay.{counts_of, replayed};
ghost use Rattle.replaying.specs.Indexing.{noted_step};
ghost use Rattle.replaying.specs.Tally.{tallied};

use change::Step;
use entitlements::{Account, Answer};
use index::SLOTS;

// How often each answer came.
#[derive(Drop)]
pub struct Counts {
    pub activated: u64,
    pub already: u64,
    pub cancelled: u64,
    pub inactive: u64,
    pub old: u64,
    pub full: u64,
}

// What replay of a page leaves: 0 where it came to the end, or the refusal at which it stopped (52 to 54), the
// offset there, how often each answer came, and the account. The refusal is a number, and no Option, since
// `lending` answers 40 in the same form (`replayed_into`).
#[derive(Drop)]
pub struct Replayed {
    pub refusal: u32,
    pub offset: usize,
    pub counts: Counts,
    pub account: Account,
}

// The counts with one more answer; an answer that no record gets is not counted.
fn tally(counts: Counts, answer: Answer) -> Counts
    ensures { result ≡ tallied counts answer }
{
    match answer {
        Answer::Activated => Counts {
            activated: counts.activated.wrapping_add(1),
            ..counts
        },
        Answer::Already => Counts {
            already: counts.already.wrapping_add(1),
            ..counts
        },
        Answer::Cancelled => Counts {
            cancelled: counts.cancelled.wrapping_add(1),
            ..counts
        },
        Answer::NotActive => Counts {
            inactive: counts.inactive.wrapping_add(1),
            ..counts
        },
        Answer::Old => Counts {
            old: counts.old.wrapping_add(1),
            ..counts
        },
        Answer::Full => Counts {
            full: counts.full.wrapping_add(1),
            ..counts
        },
        Answer::Account | Answer::Number | Answer::Code => counts,
    }
}

// No answer yet.
fn none() -> Counts
    ensures { result ≡ counts_of [] }
{
    Counts {
        activated: 0,
        already: 0,
        cancelled: 0,
        inactive: 0,
        old: 0,
        full: 0,
    }
}

// Notes the place of a step that puts an active code, before it is made.
fn note_step(account: &Account, slots: &mut [u64; SLOTS], step: Step)
    ensures { slots.new ≡ noted_step slots.old account.now.high account.now.low account.now.active step }
{
    if step.active != 0 {
        index::note(account, slots, step.place, step.code);
    }
}

// Replays a page of any bytes from an empty account, up to its end or to the first offset at which there is
// no record.
pub fn replay(page: &[u8]) -> Replayed
    ensures { result ≡ replayed page.now }
{
    let mut account = entitlements::empty();
    let mut slots = [0u64; index::SLOTS];
    let mut read = [recall::EMPTY; recall::SLOTS];
    let mut counts = none();
    let mut at = 0;
    let mut found = page::look(page, at);
    while let Ok(Some(record)) = found {
        let code = record.code;
        recall::note(page, at, code, &mut read);
        let place = index::find(&account, &slots, code);
        let change = change::change_at(record.kind, &account, place, code, record.number);
        let step = change.step;
        counts = tally(counts, change.answer);
        note_step(&account, &mut slots, step);
        change::put_step(&mut account, step);
        at += page::RECORD;
        found = recall::look(page, at, &read);
    }
    Replayed {
        refusal: page::found_number(found),
        offset: at,
        counts,
        account,
    }
}
