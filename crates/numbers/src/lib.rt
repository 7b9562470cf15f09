// The numbers of a line: document 01, "Numbers are decimal, 1 to 10 digits, at most 4,294,967,295, no
// leading zero but in `0`." Message numbers are the same with 64 bits.
#![tactic(auto)]

mod word;

ghost use Rattle.std.specs.Prelude.{◌≡◌, drop, set};
ghost use Rattle.room.specs.Room.{put_at};
ghost use Rattle.numbers.specs.Numbers.{within_at, number_at, long_at, count_in, leading_in};

const LARGEST: u64 = 4294967295;

const LARGEST_LONG: u64 = 18446744073709551615;

// The number that starts at a position of a line and ends at a space or the line's end, with the position
// just after its last digit. There is none where the word there is no number, and none at or past the
// line's end.
pub fn number_at(line: &[u8], at: usize) -> Option<(u32, usize)>
    ensures { result ≡ number_at line.now at }
{
    let (value, end) = within_at(line, at, 10, LARGEST)?;
    Some((value as u32, end))
}

// The same for a number of 64 bits: at most 18,446,744,073,709,551,615.
pub fn long_at(line: &[u8], at: usize) -> Option<(u64, usize)>
    ensures { result ≡ long_at line.now at }
{
    within_at(line, at, 20, LARGEST_LONG)
}

// The same for a number of at most so many digits, and at most `most`.
fn within_at(line: &[u8], at: usize, digits: usize, most: u64) -> Option<(u64, usize)>
    ensures { result ≡ within_at digits most line.now at }
{
    let end = word::word_end(line, at);
    if line.len() < end {
        return None;
    }
    let value = word::word_value(&line[at..end], digits, most)?;
    Some((value, end))
}

// All numbers of a line from a position to the line's end, each after one space: how many there are; or
// none, where what stands there is not of this form. The first of them go into the room, as many as it
// takes, and all of them are counted.
pub fn numbers_at(line: &[u8], at: usize, room: &mut [u32]) -> Option<usize>
    ensures value { result ≡ count_in (drop at line.now) }
    ensures room_after { room.new ≡ put_at room.old 0 (leading_in (drop at line.now)) }
{
    let mut count = 0;
    let mut i = at;
    while i < line.len() {
        if line[i] != b' ' {
            return None;
        }
        let (value, end) = number_at(line, i + 1)?;
        store(room, count, value);
        count += 1;
        i = end;
    }
    Some(count)
}

// Puts a number at an index of a room that has it; past the room's end it puts nothing.
fn store(room: &mut [u32], i: usize, value: u32)
    ensures { room.new ≡ set room.old i value }
{
    if i < room.len() {
        room[i] = value;
    }
}
