// Room that a caller lends: a text put into it from a position on, as much as fits.
#![tactic(auto)]

ghost use Rattle.std.specs.Prelude.{◌-◌, min, ◌≡◌};
ghost use Rattle.room.specs.Room.{Put};

// Puts as much of a text as fits into a room from a position on, and says the position after it.
pub fn put(out: &mut [u8], at: usize, text: &[u8]) -> usize
    ensures { Put out.old at text.now result out.new }
{
    let n = fitting(text.len(), out.len(), at);
    // By index: `copy_from_slice` here would have the library for C ask for `memmove` from outside.
    for i in 0..n {
        out[at + i] = text[i];
    }
    at + n
}

// How many of `count` bytes fit into a room of `size` bytes from a position on.
fn fitting(count: usize, size: usize, at: usize) -> usize
    ensures { result ≡ min count (size - at) }
{
    count.min(size.saturating_sub(at))
}
