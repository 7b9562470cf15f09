// The message that a line states: `A` or `C`, a space, the message number, a space, and the code as the
// rest of the line; or `T`, which asks for the total (docs/REGISTER.md, "Message lines").
#![tactic(auto)]

ghost use Rattle.std.specs.Prelude.{◌≡◌};
ghost use Rattle.lines.specs.Messages.{is_asking};
ghost use Rattle.entry.specs.Stated.{stated_of, stated_after};

use entitlements::Kind;
use lines::starts;
use numbers::long_at;

// What a line states: a message, by its kind, its number, and where in the line its text starts; or the
// question for the total.
#[derive(Drop)]
pub enum Stated {
    Message(Kind, u64, usize),
    Total,
}

// What a line states; or none, where the line is not of this form.
pub fn message_of(line: &[u8]) -> Option<Stated>
    ensures { result ≡ stated_of line.now }
{
    if starts(line, b"A ") {
        return message_after(line, Kind::Activate);
    }
    if starts(line, b"C ") {
        return message_after(line, Kind::Cancel);
    }
    if asks(line) {
        return Some(Stated::Total);
    }
    None
}

// Whether a line is the question for the total.
#[tactic(auto, using(lines::specs::MessagesLaws::asking_as))]
fn asks(line: &[u8]) -> bool
    ensures { result ≡ is_asking line.now }
{
    line == b"T".as_slice()
}

// The message of a line that starts with the letter of a kind and a space.
fn message_after(line: &[u8], kind: Kind) -> Option<Stated>
    ensures { result ≡ stated_after kind line.now }
{
    let (number, end) = long_at(line, 2)?;
    if end < line.len() {
        return Some(Stated::Message(kind, number, end + 1));
    }
    None
}
