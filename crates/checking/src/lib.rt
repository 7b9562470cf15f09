// Coding's checks before a cell is looked for, table by table, and what they leave to a road.
#![tactic(auto)]

ghost use Rattle.std.specs.Prelude.{◌/◌, ◌≤◌, ◌≡◌, length};
ghost use Rattle.replies.specs.Replies.{run};
ghost use Rattle.corners.specs.Corners.{corners_of};
ghost use Rattle.unit.specs.Extents.{extremes_of};
ghost use Rattle.unit.specs.Unit.{bad_number, room_check, shape_checks, crossed_check, ground_checks, number_check};
ghost use Rattle.unit.specs.Frame.{says, tells, admitting};

use ground::{DEGREE, Rectangle};
use unit::{Kind, Refusal};

// What check 1 says of so many bytes of room.
fn room_check(room: usize) -> Result<(), Refusal>
    ensures { says result ≡ run (room_check room) }
{
    if room < 20 {
        return Err(Refusal::Output);
    }
    Ok(())
}

// What checks 2 and 3 say.
fn shape_checks(numbers: &[u32]) -> Result<(), Refusal>
    ensures { says result ≡ run (shape_checks numbers.now) }
{
    if numbers.len() % 2 == 1 {
        return Err(Refusal::Pairs);
    }
    let count = numbers.len() / 2;
    if !(3..=1024).contains(&count) {
        return Err(Refusal::Corners);
    }
    Ok(())
}

// What check 31 says of at most 1,024 corners.
fn crossed_check(numbers: &[u32]) -> Result<(), Refusal>
    requires { length numbers.now / 2 ≤ 1024 }
    ensures { says result ≡ run (crossed_check (corners_of numbers.now)) }
{
    match crossed::first_pair(numbers) {
        Some((first, _)) => {
            let corner = first as u32;
            Err(Refusal::Crossed(corner))
        }
        None => Ok(()),
    }
}

// What checks 4, 5 and 31 say of at most 1,024 corners and their extremes.
#[tactic(auto, using(corners::specs::Corners::corners_length, unit::specs::CheckLaws::span_above))]
fn ground_checks(numbers: &[u32], r: Rectangle) -> Result<(), Refusal>
    requires numbers_len_bound { length numbers.now / 2 ≤ 1024 }
    requires r_value { r ≡ extremes_of (corners_of numbers.now) }
    ensures { says result ≡ run (ground_checks (corners_of numbers.now)) }
{
    let above = extents::first_above(numbers);
    if above < numbers.len() / 2 {
        let corner = above as u32;
        return Err(Refusal::Range(corner));
    }
    if DEGREE < extents::span(r) {
        return Err(Refusal::Extent);
    }
    crossed_check(numbers)
}

// Whether a number is none that a unit of a kind can have.
fn bad_number(kind: Kind, number: u32) -> bool
    ensures { result ≡ bad_number kind number }
{
    match kind {
        Kind::Building => code::outside(1, 1048575, number),
        Kind::Other => number != 0,
    }
}

// What check 6 says.
fn number_check(kind: Kind, number: u32) -> Result<(), Refusal>
    ensures { says result ≡ run (number_check kind number) }
{
    if bad_number(kind, number) {
        return Err(Refusal::Number);
    }
    Ok(())
}

// What the tables leave to a road: the refusal of the first check that refuses, or the unit's own extremes;
// a cell is looked for only then. The extremes are worked out once, for check 5 and for the road, and not
// where no corner has to be looked at.
pub fn admit(room: usize, numbers: &[u32], kind: Kind, number: u32) -> Result<Rectangle, Refusal>
    ensures { tells result ≡ admitting room numbers.now kind number }
{
    room_check(room)?;
    shape_checks(numbers)?;
    let r = extents::extremes(numbers);
    ground_checks(numbers, r)?;
    number_check(kind, number)?;
    Ok(r)
}
