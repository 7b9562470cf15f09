// The text of a replay put into an output, a line each: where it stopped, how often each answer came, the
// last number, the total, and the code of each active place. The definitions are in specs/Summary.antt.
// Each function puts as much as fits from a position on, and says the position after it.
#![tactic(auto)]

ghost use Rattle.room.specs.Room.{Put};
ghost use Rattle.letters.specs.Letters.{letters, spelled_in};
ghost use Rattle.summary.specs.Summary.{line_of, stop_line, count_lines, place_line, place_lines, summary_of};

use entitlements::Account;
use halves::Halves;
use output::put_decimal;
use places::PLACES;
use replaying::{Counts, Replayed};
use room::put;

// Room for any summary: nine lines, and one for each place, of at most 50 bytes.
pub const MOST: usize = (9 + PLACES) * 50;

// Puts a line: a name, a space, a number and a line feed.
fn put_line(out: &mut [u8], at: usize, name: &[u8], n: u64) -> usize
    ensures { Put out.old at (line_of name.now n) result out.new }
{
    let end = put(out, at, name);
    let end = put(out, end, b" ");
    let end = put_decimal(out, end, n);
    put(out, end, b"\n")
}

// Puts where the replay stopped: at the page's end, or at a refusal.
fn put_stop(out: &mut [u8], at: usize, refusal: u32, offset: usize) -> usize
    ensures { Put out.old at (stop_line refusal offset) result out.new }
{
    if refusal == 0 {
        return put_line(out, at, b"end", offset as u64);
    }
    let end = put(out, at, b"refused ");
    let end = put_decimal(out, end, refusal as u64);
    let end = put(out, end, b" ");
    let end = put_decimal(out, end, offset as u64);
    put(out, end, b"\n")
}

// Puts how often each answer came.
fn put_counts(out: &mut [u8], at: usize, counts: Counts) -> usize
    ensures { Put out.old at (count_lines counts) result out.new }
{
    let end = put_line(out, at, b"activated", counts.activated);
    let end = put_line(out, end, b"already", counts.already);
    let end = put_line(out, end, b"cancelled", counts.cancelled);
    let end = put_line(out, end, b"not active", counts.inactive);
    let end = put_line(out, end, b"old", counts.old);
    put_line(out, end, b"full", counts.full)
}

// Puts the ten letters of a half.
fn put_half(out: &mut [u8], at: usize, half: u64) -> usize
    ensures { Put out.old at (spelled_in letters 10 half) result out.new }
{
    let mut text = [0u8; 10];
    letters::spell(&mut text, half);
    put(out, at, &text)
}

// Puts a place and the code that it holds.
fn put_place(out: &mut [u8], at: usize, place: usize, code: Halves) -> usize
    ensures { Put out.old at (place_line place code) result out.new }
{
    let end = put_decimal(out, at, place as u64);
    let end = put(out, end, b" ");
    let end = put_half(out, end, code.high);
    let end = put_half(out, end, code.low);
    put(out, end, b"\n")
}

// Puts each active place of an account, lowest first.
fn put_places(out: &mut [u8], at: usize, account: &Account) -> usize
    ensures { Put out.old at (place_lines account.now.high account.now.low account.now.active) result out.new }
{
    let mut end = at;
    for i in 0..PLACES {
        if account.active[i] != 0 {
            let code = Halves {
                high: account.high[i],
                low: account.low[i],
            };
            end = put_place(out, end, i, code);
        }
    }
    end
}

// Puts the summary of a replay at the start of an output.
pub fn put_summary(replayed: Replayed, out: &mut [u8]) -> usize
    ensures { Put out.old 0 (summary_of replayed) result out.new }
{
    let account = replayed.account;
    let end = put_stop(out, 0, replayed.refusal, replayed.offset);
    let end = put_counts(out, end, replayed.counts);
    let end = put_line(out, end, b"last", account.last);
    let end = put_line(out, end, b"total", account.total);
    put_places(out, end, &account)
}
