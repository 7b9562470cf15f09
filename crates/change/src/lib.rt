// What a message changes in an account: its answer, the last number, the total, and what is put at one
// place. Who runs through many messages keeps the account where it is and changes it there; no account is
// copied. For an account that was checked: 41, 42, "old" and 43. The check on the whole account, 40, is in
// `message`.
#![tactic(auto)]

ghost use Rattle.std.specs.Prelude.{◌≡◌};
ghost use Rattle.entitlements.specs.Entitlements.{raised as Entitlements·raised, lowered as Entitlements·lowered};
ghost use Rattle.change.specs.Change.{stays, stepped, keeps, activating, cancelling, acting_at, change_at, change_by, change_of};

use entitlements::{Account, Answer, Kind};
use halves::Halves;
use places::PLACES;

// A step of an account: the last number and the total afterwards, and the place that is changed, with the
// code and the activity that are put there. 256 is no place: nothing is put, and the code and the activity
// are 0. It is no Option: `put_step` asks for no place below 256, and so would compare it all the same.
#[derive(Clone, Copy)]
pub struct Step {
    pub last: u64,
    pub total: u64,
    pub place: usize,
    pub code: Halves,
    pub active: u64,
}

// A change: the answer to a message, and the account's step.
#[derive(Drop)]
pub struct Change {
    pub answer: Answer,
    pub step: Step,
}

// The step that puts nothing.
pub fn stay(last: u64, total: u64) -> Step
    ensures { result ≡ stays last total }
{
    Step {
        last,
        total,
        place: PLACES,
        code: Halves { high: 0, low: 0 },
        active: 0,
    }
}

// Puts a step into an account.
pub fn put_step(account: &mut Account, step: Step)
    ensures { account.new ≡ stepped step account.old }
{
    let place = step.place;
    if place < PLACES {
        account.high[place] = step.code.high;
        account.low[place] = step.code.low;
        account.active[place] = step.active;
    }
    account.last = step.last;
    account.total = step.total;
}

// What changes where nothing is put.
fn keep(answer: Answer, last: u64, total: u64) -> Change
    ensures { result ≡ keeps answer last total }
{
    Change {
        answer,
        step: stay(last, total),
    }
}

// The total with one place more active.
fn raised(total: u64) -> u64
    ensures { result ≡ Entitlements·raised total }
{
    if total < PLACES as u64 {
        total + 1
    } else {
        total
    }
}

// The total with one place less active.
fn lowered(total: u64) -> u64
    ensures { result ≡ Entitlements·lowered total }
{
    total.saturating_sub(1)
}

// What an activation changes, by the place of its code.
fn activation(account: &Account, place: usize, code: Halves, number: u64) -> Change
    ensures { result ≡ activating account.now.active place code number account.now.total }
{
    let total = account.total;
    let more = raised(total);
    if place < PLACES {
        return keep(Answer::Already, number, total);
    }
    let free = places::free_place(&account.active);
    if free < PLACES {
        return Change {
            answer: Answer::Activated,
            step: Step {
                last: number,
                total: more,
                place: free,
                code,
                active: 1,
            },
        };
    }
    keep(Answer::Full, number, total)
}

// What a cancellation changes, by the place of its code.
fn cancellation(place: usize, number: u64, total: u64) -> Change
    ensures { result ≡ cancelling place number total }
{
    let less = lowered(total);
    if place < PLACES {
        return Change {
            answer: Answer::Cancelled,
            step: Step {
                last: number,
                total: less,
                place,
                code: Halves { high: 0, low: 0 },
                active: 0,
            },
        };
    }
    keep(Answer::NotActive, number, total)
}

// What either message changes, by the place of its code.
fn act(kind: Kind, account: &Account, place: usize, code: Halves, number: u64) -> Change
    ensures { result ≡ acting_at kind account.now.active place code number account.now.total }
{
    match kind {
        Kind::Activate => activation(account, place, code, number),
        Kind::Cancel => cancellation(place, number, account.total),
    }
}

// What a message changes whose code was read and whose number is in range, by the place of its code, which
// the caller looks up: 256 where the code is not active. It is no Option, since `lowest_place`, `looked_up`
// and the definition `change_at` answer and take 256, and theorems of `index` and `replaying` speak of them.
pub fn change_at(kind: Kind, account: &Account, place: usize, code: Halves, number: u64) -> Change
    ensures { result ≡ change_at kind account.now.active account.now.last account.now.total place code number }
{
    if number <= account.last {
        return keep(Answer::Old, account.last, account.total);
    }
    act(kind, account, place, code, number)
}

// The same with the place looked up, but for an "old" message, whose code may be anywhere.
fn change_by(kind: Kind, account: &Account, code: Halves, number: u64) -> Change
    ensures { result ≡ change_by kind account.now code number }
{
    let place = if number > account.last {
        places::code_place(&account.high, &account.low, &account.active, code)
    } else {
        PLACES
    };
    change_at(kind, account, place, code, number)
}

// What a message of any text and any number changes.
pub fn change_of(kind: Kind, account: &Account, text: &[u8], number: u64) -> Change
    ensures { result ≡ change_of kind account.now text.now number }
{
    if number == 0 || number > entitlements::LARGEST {
        return keep(Answer::Number, account.last, account.total);
    }
    let Some(code) = halves::code_in(text) else {
        return keep(Answer::Code, account.last, account.total);
    };
    change_by(kind, account, code, number)
}
