// The reply to one line.
ghost use Rattle.std.specs.Prelude.{◌*◌, ◌≤◌, length, take};
ghost use Rattle.room.specs.Room.{Put};
ghost use Rattle.lines.specs.Lines.{longest, reply_line};
ghost use Rattle.register.specs.Said.{code_said, said};

use lines::Line;
use stated::Unit;

// More coordinates than a line has: each takes a space and a digit.
pub(crate) const MOST: usize = lines::LONGEST / 2;

// The reply to a line whose first bytes stand in a room.
pub(crate) fn reply_held(
    line: Line,
    room: &[u8],
    coordinates: &mut [u32],
    out: &mut [u8],
    at: usize,
) -> usize
    requires { longest ≤ 2 * length coordinates.old }
    ensures { Put out.old at (reply_line line.number (said (take line.len room.now))) result out.new }
{
    let number = line.number;
    let len = line.len;
    if room.len() < len {
        return reply_line(number, room, coordinates, out, at);
    }
    reply_line(number, &room[..len], coordinates, out, at)
}

// The reply to a line.
fn reply_line(number: u64, line: &[u8], coordinates: &mut [u32], out: &mut [u8], at: usize) -> usize
    requires { longest ≤ 2 * length coordinates.old }
    ensures { Put out.old at (reply_line number (said line.now)) result out.new }
{
    if line.len() > lines::LONGEST {
        return output::put_refused(out, at, number, 10, 0);
    }
    let stated = stated::unit_of(line, coordinates);
    let Some(unit) = stated else {
        return output::put_refused(out, at, number, 9, 0);
    };
    reply_unit(number, unit, &coordinates[..unit.count], out, at)
}

// The reply to a line that states a unit.
fn reply_unit(line: u64, unit: Unit, coordinates: &[u32], out: &mut [u8], at: usize) -> usize
    ensures { Put out.old at (reply_line line (code_said unit.letter unit.number coordinates.now)) result out.new }
{
    let mut code = [0u8; 20];
    let answer = quick::code(
        &mut code,
        coordinates,
        unit::kind_of(unit.letter),
        unit.number,
    );
    let refusal = unit::coded_number(answer);
    if refusal == 0 {
        return output::put_code(out, at, line, &code);
    }
    output::put_refused(out, at, line, refusal, unit::coded_place(answer))
}
