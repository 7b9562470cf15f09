// A word of a line: where it ends, and its value where it is a number.
ghost use Rattle.std.specs.Prelude.{◌+◌, ◌*◌, ◌≤◌, ◌≡◌, ltb, length, drop};
ghost use Rattle.numbers.specs.Numbers.{word as Numbers·word, digits_after, word_of};

// The position of the first space from a position on, or the line's end.
pub(crate) fn word_end(line: &[u8], at: usize) -> usize
    ensures { result ≡ at + length (Numbers·word (drop at line.now)) }
{
    for i in at..line.len() {
        if line[i] == b' ' {
            return i;
        }
    }
    at.max(line.len())
}

// The value of a word: 1 to `count` digits, at most `most`, no leading zero but in `0`.
pub(crate) fn word_value(word: &[u8], count: usize, most: u64) -> Option<u64>
    ensures { result ≡ word_of count most word.now }
{
    if word.len() < 1 {
        return None;
    }
    if word.len() > count {
        return None;
    }
    if word.len() == 1 {
        return digits(word, most);
    }
    if word[0] == b'0' {
        return None;
    }
    digits(word, most)
}

// The value of any count of digits that is at most `most`.
fn digits(word: &[u8], most: u64) -> Option<u64>
    ensures { result ≡ digits_after most 0 word.now }
{
    let mut value: u64 = 0;
    for byte in word {
        if !byte.is_ascii_digit() {
            return None;
        }
        let digit = (*byte - b'0') as u64;
        if above(value, digit, most) {
            return None;
        }
        value = 10 * value + digit;
    }
    Some(value)
}

// Whether a digit after a value makes a number above `most`, which may be too large for 64 bits. Most
// digits come after less than a tenth of it.
fn above(value: u64, digit: u64, most: u64) -> bool
    requires { digit ≤ 9 }
    ensures { result ≡ ltb most (10 * value + digit) }
{
    let tenth = most / 10;
    if value < tenth {
        return false;
    }
    if value > tenth {
        return true;
    }
    digit > most % 10
}
