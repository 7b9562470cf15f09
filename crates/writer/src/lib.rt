// Writing a code: from fields to its two numbers, which are then spelled.
#![tactic(auto)]

ghost use Rattle.std.specs.Prelude.{◌≡◌};
ghost use Rattle.replies.specs.Replies.{run};
ghost use Rattle.code.specs.Code.{no_reference, no_point, no_spans, field_checks, rest_of, says, leaves, writing};
ghost use Rattle.code.specs.WritingLaws.{Good};

use code::{Fields, WriteError};
use ground::Point;

// Whether an angle is no multiple of 32, or at or above its end.
fn no_reference(angle: u32, end: u32) -> bool
    ensures { result ≡ no_reference angle end }
{
    angle % ground::LOCATION_SIZE != 0 || end <= angle
}

// Whether a point is no reference that a code can have.
fn no_point(p: Point) -> bool
    ensures { result ≡ no_point p }
{
    no_reference(p.lat.0, ground::LAT_END) || no_reference(p.lon.0, ground::LON_END)
}

// Whether one of the spans is none that a code can have.
fn no_spans(f: Fields) -> bool
    ensures { result ≡ no_spans f }
{
    code::outside(2, 31, f.east)
        || code::outside(2, 31, f.north)
        || code::outside(1, 31, f.west)
        || code::outside(1, 31, f.south)
}

// The scale, the spans and the unit number of fields that passed, as one number of nine letters.
#[tactic(auto, unfolding(code::specs::Code::rest_of))]
fn rest_of(f: Fields) -> u64
    requires { Good f }
    ensures { result ≡ rest_of f }
{
    let spans = ((f.east * 32 + f.west) * 32 + f.south) * 32 + f.north;
    (f.scale as u64 * 1048576 + spans as u64) * 1048576 + f.number as u64
}

// Whether a code can have such fields: what is refused (22 to 25), or acceptance.
#[tactic(auto, unfolding(code::specs::Code::field_checks))]
fn checks(f: Fields) -> Result<(), WriteError>
    ensures { says result ≡ run (field_checks f) }
{
    if no_point(f.reference) {
        return Err(WriteError::Reference);
    }
    if code::outside(14, code::FINEST_SCALE, f.scale) {
        return Err(WriteError::Scale);
    }
    if no_spans(f) {
        return Err(WriteError::Span);
    }
    if 1048575 < f.number {
        return Err(WriteError::Number);
    }
    Ok(())
}

// Writes the code of fields into bytes 0 to 19 of a room, or refuses and writes nothing.
pub fn write(room: &mut [u8], fields: Fields) -> Result<(), WriteError>
    ensures { leaves result room.new ≡ writing room.old fields }
{
    if room.len() < 20 {
        return Err(WriteError::Output);
    }
    checks(fields)?;
    let location = location::location_of(fields.reference);
    spelling::spell(room, location, rest_of(fields));
    Ok(())
}
