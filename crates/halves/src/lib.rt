// The two halves of a code, as an account keeps them: ten letters each, as a number in base 32, high
// letter first. They are the two numbers of a code cut at another letter, so that no half is spelled to
// be read.
#![tactic(auto)]

ghost use Rattle.std.specs.Prelude.{◌≡◌};
ghost use Rattle.halves.specs.Halves.{accepted, is_code, code_of, code_in};

// The halves of a code: its first ten letters, and its last ten.
#[derive(Clone, Copy)]
pub struct Halves {
    pub high: u64,
    pub low: u64,
}

// One more than a half may be.
const END: u64 = 0x4_0000_0000_0000;

// One more than the last nine letters may make.
const NINE: u64 = 0x2000_0000_0000;

// Whether reading accepts two numbers.
fn accepts(location: u64, rest: u64) -> bool
    ensures { result ≡ accepted location rest }
{
    reader::read_numbers(location, rest).is_ok()
}

// Whether halves are those of a code that reading accepts.
#[tactic(auto, using(crate::specs::HalvesLaws::halves_read_lem), unfolding(crate::specs::Halves::is_code))]
pub fn is_code(halves: Halves) -> bool
    ensures { result ≡ is_code halves }
{
    halves.high < END
        && halves.low < END
        && accepts(halves.high * 32 + halves.low / NINE, halves.low % NINE)
}

// The code of two numbers of a text, where reading accepts them: the location's last letter goes to
// the low half.
fn code_of(location: u64, rest: u64) -> Option<Halves>
    ensures { result ≡ code_of location rest }
{
    accepts(location, rest).then_some(Halves {
        high: location / 32,
        low: location % 32 * NINE + rest % NINE,
    })
}

// The code of a text of any length and any bytes: its halves, or none where reading refuses it.
pub fn code_in(text: &[u8]) -> Option<Halves>
    ensures { result ≡ code_in text.now }
{
    let (location, rest) = spelling::numbers_in(text).ok()?;
    code_of(location, rest)
}
