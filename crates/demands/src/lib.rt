// The demands of the mission as statements, and document 01's starred cases. Definitions and laws are
// in specs/: demand 2 in Coded.antt, that long tails get a code (document 02, request 2) in Tails.antt,
// demand 3 between the two roads in Ground.antt, the starred cases in Starred.antt.
#![tactic(auto)]

ghost use Rattle.std.specs.Prelude.{◌≡◌};
ghost use Rattle.corners.specs.Corners.{corners_of};
ghost use Rattle.boundary.specs.Changes.{SameGround};
ghost use Rattle.unit.specs.Unit.{coding};
ghost use Rattle.unit.specs.Frame.{leaves};
ghost use Rattle.unit.specs.SameGround.{Counted};
ghost use Rattle.demands.specs.Ground.{SameAnswer};

use unit::{Kind, Refusal};

// What the two roads answer.
#[derive(Drop)]
pub struct Both {
    pub quick: Result<(), Refusal>,
    pub plain: Result<(), Refusal>,
}

// Demand 3: codes one list of corners by the quick road and another by the plain road, for all inputs,
// each in a room of its own. Where both pass the checks on room, pairing and number of corners, and
// the lists are of one ground, the code is the same or the refusal number is.
pub fn both_roads(
    one: &mut [u8],
    other: &mut [u8],
    numbers: &[u32],
    others: &[u32],
    kind: Kind,
    number: u32,
) -> Both
    ensures one_after { leaves result.quick one.new ≡ coding one.old numbers.now kind number }
    ensures other_after { leaves result.plain other.new ≡ coding other.old others.now kind number }
    ensures same_answer { Counted one.old numbers.now
        → Counted other.old others.now
        → SameGround (corners_of numbers.now) (corners_of others.now)
        → SameAnswer result.quick one.new result.plain other.new }
{
    let quick = quick::code(one, numbers, kind, number);
    let plain = plain::code(other, others, kind, number);
    Both { quick, plain }
}
