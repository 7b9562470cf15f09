// Reading a code: from a text to its two numbers, and from the numbers to fields and rectangle.
#![tactic(auto)]

ghost use Rattle.std.specs.Prelude.{◌≡◌};
ghost use Rattle.replies.specs.Replies.{run};
ghost use Rattle.code.specs.Code.{past59, short_span, fields_in, span_checks, told_where, tells, reading_numbers, reading};

use code::{Fields, ReadError, Reading};

// Whether minutes or seconds are above 59.
fn past_59(bits: u32) -> bool
    ensures { result ≡ past59 bits }
{
    59 < bits / 4096 % 64 || 59 < bits / 64 % 64
}

// Whether a span is too small to read.
fn short_span(f: Fields) -> bool
    ensures { result ≡ short_span f }
{
    f.east < 2 || f.north < 2 || f.west < 1 || f.south < 1
}

// The fields that two numbers tell.
#[tactic(auto, unfolding(code::specs::Code::fields_in))]
fn fields_in(location: u64, rest: u64) -> Fields
    ensures { result ≡ fields_in location rest }
{
    Fields {
        reference: location::reference_in(location),
        scale: (rest / 0x100_0000_0000 % 32) as u32,
        east: (rest / 0x8_0000_0000 % 32) as u32,
        west: (rest / 0x4000_0000 % 32) as u32,
        south: (rest / 0x200_0000 % 32) as u32,
        north: (rest / 0x10_0000 % 32) as u32,
        number: (rest % 0x10_0000) as u32,
    }
}

// Reads fields: scale and spans are refused (17 and 18), or told.
#[tactic(auto, unfolding(code::specs::Code::span_checks))]
fn read_fields(fields: Fields) -> Result<Reading, ReadError>
    ensures { tells result ≡ told_where (run (span_checks fields)) fields }
{
    if code::outside(14, code::FINEST_SCALE, fields.scale) {
        return Err(ReadError::Scale);
    }
    if short_span(fields) {
        return Err(ReadError::Span);
    }
    let rectangle = rectangle::rectangle_of(fields);
    Ok(Reading { fields, rectangle })
}

// Reads two numbers: the bits of the location are refused (13 to 16), or the fields read.
#[tactic(auto, unfolding(code::specs::Code::reading_numbers, code::specs::Code::location_checks))]
pub fn read_numbers(location: u64, rest: u64) -> Result<Reading, ReadError>
    ensures { tells result ≡ reading_numbers location rest }
{
    if location % 2 == 0 {
        return Err(ReadError::Closing);
    }
    let lat = location::lat_in(location);
    let lon = location::lon_in(location);
    if 0 < lat / 0x400_0000 || 0 < lon / 0x400_0000 {
        return Err(ReadError::Hemisphere);
    }
    if 89 < lat / 0x4_0000 || 179 < lon / 0x4_0000 {
        return Err(ReadError::Degrees);
    }
    if past_59(lat) || past_59(lon) {
        return Err(ReadError::Sixty);
    }
    read_fields(fields_in(location, rest))
}

// Reads a text of any length and any bytes: its two numbers (or 11 and 12), and then these.
pub fn read(text: &[u8]) -> Result<Reading, ReadError>
    ensures { tells result ≡ reading text.now }
{
    let (location, rest) = spelling::numbers_in(text)?;
    read_numbers(location, rest)
}
