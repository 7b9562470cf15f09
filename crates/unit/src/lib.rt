// A unit: what coding is, and its answers. The definitions are in specs/: extents in Extents.antt,
// scale, spans, checks and coding in Unit.antt, the frame that both roads share around their search in
// Frame.antt.
#![tactic(auto)]

ghost use Rattle.std.specs.Prelude.{◌≡◌};
ghost use Rattle.unit.specs.Frame.{says};
ghost use Rattle.unit.specs.Unit.{kind_of};

// The kind of a unit.
#[derive(Clone, Copy)]
pub enum Kind {
    Building,
    Other,
}

// The kind that a letter of the listing names: `B` a building, any other byte another kind. No `From<u8>`
// beside it: this public function stays, and an impl would only say it again.
#[tactic(auto, unfolding(crate::specs::Unit::kind_of))]
pub fn kind_of(letter: u8) -> Kind
    ensures { result ≡ kind_of letter }
{
    if letter == b'B' {
        Kind::Building
    } else {
        Kind::Other
    }
}

// What coding refuses (1 to 7, and 31 between 5 and 6).
#[derive(Clone, Copy)]
pub enum Refusal {
    Output,
    Pairs,
    Corners,
    Range(u32),
    Extent,
    Crossed(u32),
    Number,
    NoCell,
}

// The number of an answer of coding.
pub fn coded_number(answer: Result<(), Refusal>) -> u32
    ensures { result ≡ (says answer).number }
{
    match answer {
        Ok(()) => 0,
        Err(Refusal::Output) => 1,
        Err(Refusal::Pairs) => 2,
        Err(Refusal::Corners) => 3,
        Err(Refusal::Range(_)) => 4,
        Err(Refusal::Extent) => 5,
        Err(Refusal::Crossed(_)) => 31,
        Err(Refusal::Number) => 6,
        Err(Refusal::NoCell) => 7,
    }
}

// The place of an answer of coding: the first corner above its range, or the corner where the first edge of
// the first pair that meets starts, or 0.
pub fn coded_place(answer: Result<(), Refusal>) -> u32
    ensures { result ≡ (says answer).place }
{
    match answer {
        Err(Refusal::Range(corner)) => corner,
        Err(Refusal::Crossed(corner)) => corner,
        _ => 0,
    }
}
