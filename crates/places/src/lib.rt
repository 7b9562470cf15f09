// The places of an account: 256 of activity, with the halves of a code each. Searched from place 0 up;
// where none is found the answer is 256, and no Option: so `lowest_place` answers, of which theorems of
// `index` and `change` speak. Counted, for the total.
#![tactic(auto)]

ghost use Rattle.std.specs.Prelude.{◌≡◌, not, ◌&&◌, eqb};
ghost use Rattle.places.specs.Places.{is_free, has_low, holds, lowest_place, count_active};

use halves::Halves;

// How many places an account has.
pub const PLACES: usize = 256;

// The lowest free place.
pub fn free_place(active: &[u64; PLACES]) -> usize
    ensures { result ≡ lowest_place (is_free active.now) }
{
    active.iter().position(|a| *a == 0).unwrap_or(PLACES)
}

// The lowest place whose low half is this one, whatever else it holds.
fn low_place(low: &[u64; PLACES], half: u64) -> usize
    ensures { result ≡ lowest_place (has_low low.now half) }
{
    low.iter().position(|l| *l == half).unwrap_or(PLACES)
}

// Whether a place of this activity and these halves has a code active.
pub fn has(active: u64, high: u64, low: u64, code: Halves) -> bool
    ensures { result ≡ (not (eqb active 0) && (eqb high code.high && eqb low code.low)) }
{
    active != 0 && high == code.high && low == code.low
}

// The lowest place at which a code is active, looked for place by place.
fn full_search(
    high: &[u64; PLACES],
    low: &[u64; PLACES],
    active: &[u64; PLACES],
    code: Halves,
) -> usize
    ensures { result ≡ lowest_place (holds high.now low.now active.now code) }
{
    (0..PLACES)
        .find(|i| has(active[*i], high[*i], low[*i], code))
        .unwrap_or(PLACES)
}

// The lowest place at which a code is active. Few places have the same low half, so that one comparison a
// place nearly always decides; a free place may hold anything, and then all is looked at.
pub fn code_place(
    high: &[u64; PLACES],
    low: &[u64; PLACES],
    active: &[u64; PLACES],
    code: Halves,
) -> usize
    ensures { result ≡ lowest_place (holds high.now low.now active.now code) }
{
    let first = low_place(low, code.low);
    if first >= PLACES {
        return first;
    }
    if has(active[first], high[first], low[first], code) {
        return first;
    }
    full_search(high, low, active, code)
}

// How many places are active.
pub fn count_active(active: &[u64; PLACES]) -> u64
    ensures { result ≡ count_active active.now }
{
    let mut count = 0;
    // No `filter` and `count`: by these it took three times the instructions, for want of vectors.
    for i in 0..PLACES {
        if active[i] != 0 {
            count += 1;
        }
    }
    count
}
