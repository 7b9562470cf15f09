// An index of the codes that are active in an account, kept beside it by who sends many messages: a slot for
// each hash of a code has the place that a code of this hash took last, or is crowded. A slot is a guess, which
// is looked at before it is told: a wrong one costs time and never an answer.
#![tactic(auto)]

ghost use Rattle.std.specs.Prelude.{◌≡◌, not, ◌&&◌, eqb};
ghost use Rattle.halves.specs.Halves.{halves_by};
ghost use Rattle.index.specs.Index.{hash_of, looked_up, noted};

use entitlements::Account;
use halves::Halves;
use places::PLACES;

// How many slots an index has: a prime number, so that codes that lie in rows have other slots.
pub const SLOTS: usize = 16381;

// The hash of a code.
fn hash(code: Halves) -> usize
    ensures { result ≡ hash_of code }
{
    let slots = SLOTS as u64;
    ((code.high % slots + code.low % slots) % slots) as usize
}

// Whether a place of this activity and these halves is active with a code of this hash.
fn shares(active: u64, high: u64, low: u64, slot: usize) -> bool
    ensures { result ≡ (not (eqb active 0) && eqb (hash_of (halves_by high low)) slot) }
{
    active != 0 && hash(Halves { high, low }) == slot
}

// Looks up the place of a code: the one in its slot, where the code is active there, or else none. Where the
// slot is crowded, all places are looked at. 256 for none, and no Option: so `looked_up` answers, of which
// theorems of `index` and `replaying` speak.
pub fn find(account: &Account, slots: &[u64; SLOTS], code: Halves) -> usize
    ensures { result ≡ looked_up slots.now account.now.high account.now.low account.now.active code }
{
    let slot = hash(code);
    let place = slots[slot] as usize;
    if place >= PLACES {
        return places::code_place(&account.high, &account.low, &account.active, code);
    }
    if places::has(
        account.active[place],
        account.high[place],
        account.low[place],
        code,
    ) {
        return place;
    }
    PLACES
}

// Notes that a code takes a place, before it is put there. Where a code of its hash is active, the slot becomes
// crowded, and it stays so.
pub fn note(account: &Account, slots: &mut [u64; SLOTS], place: usize, code: Halves)
    ensures { slots.new ≡ noted slots.old account.now.high account.now.low account.now.active place code }
{
    let slot = hash(code);
    let other = slots[slot] as usize;
    if other >= PLACES {
        return;
    }
    if shares(
        account.active[other],
        account.high[other],
        account.low[other],
        slot,
    ) {
        slots[slot] = PLACES as u64;
        return;
    }
    slots[slot] = place as u64;
}
