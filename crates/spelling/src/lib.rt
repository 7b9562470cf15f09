// The twenty letters of a code as two numbers: the location, of 11 letters, and scale, spans and
// unit number together, of 9. Read from a text, and spelled into a room.
#![tactic(auto)]

ghost use Rattle.std.specs.Prelude.{◌≡◌};
ghost use Rattle.spelling.specs.Spelling.{numbers_in, spells, spelled_into};

// Why a text spells no numbers: its length is not 20 (11), or the byte at this place is no
// letter (12).
#[derive(Clone, Copy)]
pub enum Misspelled {
    Length,
    Letter(u32),
}

// The two numbers of a text of any length and any bytes: its location, and the rest of its letters.
#[tactic(auto, unfolding(crate::specs::Spelling::numbers_in, crate::specs::Spelling::text_checks))]
pub fn numbers_in(text: &[u8]) -> Result<(u64, u64), Misspelled>
    ensures { spells result ≡ numbers_in text.now }
{
    if text.len() != 20 {
        return Err(Misspelled::Length);
    }
    let other = letters::first_other(text);
    if other < text.len() {
        return Err(Misspelled::Letter(other as u32));
    }
    Ok((
        letters::number(&text[0..11]),
        letters::number(&text[11..20]),
    ))
}

// Spells two numbers into bytes 0 to 19 of a room, and writes nothing into a shorter one. Bits
// for which there is no letter are left out.
#[tactic(auto, unfolding(crate::specs::Spelling::spelled_into))]
pub fn spell(room: &mut [u8], location: u64, rest: u64)
    ensures { room.new ≡ spelled_into room.old location rest }
{
    if room.len() < 20 {
        return;
    }
    letters::spell(&mut room[0..11], location);
    letters::spell(&mut room[11..20], rest);
}
