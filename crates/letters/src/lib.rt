// The thirty-two letters: spelling a number in base 32, and reading one back. Where there is no place
// the length stands for it, and no Option: `value_in` and `first_other` of specs/ have it so.
#![tactic(auto)]

ghost use Rattle.std.specs.Prelude.{◌≡◌, ◌%◌, ◌^◌, length};
ghost use Rattle.letters.specs.Alphabet.{value_in, first_other};
ghost use Rattle.letters.specs.Letters.{letters, spelled_in, number_in};

// The letters by value, 0 to 31: I, O, S and Z are none, and 23 is P.
const LETTERS: [u8; 32] = *b"0123456789ABCDEFGHJKLMNPQRTUVWXY";

// The value of a byte in an alphabet, or the alphabet's length where it is no letter of it.
pub fn value_in(alphabet: &[u8], byte: u8) -> usize
    ensures { result ≡ value_in alphabet.now byte }
{
    let place = alphabet.iter().position(|letter| *letter == byte);
    place.unwrap_or(alphabet.len())
}

// The value of a letter, 0 to 31, and 32 for a byte that is none.
#[tactic(auto, using(crate::specs::Alphabet::value_most))]
pub fn value(byte: u8) -> u32
    ensures { result ≡ value_in letters byte }
{
    value_in(&LETTERS, byte) as u32
}

// The place of the first byte that is no letter, or the text's length where each is one.
pub fn first_other(text: &[u8]) -> usize
    ensures { result ≡ first_other letters text.now }
{
    let place = text.iter().position(|byte| value(*byte) == 32);
    place.unwrap_or(text.len())
}

// Spells a number in the whole of a room, a letter for each five bits, high first; bits for which
// the room has no letter are left out.
#[tactic(auto, using(crate::specs::Letters::spelling_begin, crate::specs::Letters::spelling_again, crate::specs::Letters::spelling_end))]
pub fn spell(room: &mut [u8], number: u64)
    ensures { room.new ≡ spelled_in letters (length room.old) number }
{
    let mut rest = number;
    // By index: a proof knows nothing of what an adapter of `iter_mut` wrote.
    for i in (0..room.len()).rev() {
        room[i] = LETTERS[(rest % 32) as usize];
        rest /= 32;
    }
}

// The number that a text spells, or its low sixty bits where it has more than twelve letters.
#[tactic(auto, using(crate::specs::Alphabet::value_most, crate::specs::Letters::summing_begin, crate::specs::Letters::summing_again, crate::specs::Letters::summing_end))]
pub fn number(text: &[u8]) -> u64
    ensures { result ≡ number_in letters text.now % 2 ^ 60 }
{
    let mut sum = 0u64;
    for byte in text {
        sum = (sum % 0x80_0000_0000_0000 * 32 + value(*byte) as u64) % 0x1000_0000_0000_0000;
    }
    sum
}
