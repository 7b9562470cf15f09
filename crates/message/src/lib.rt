// The two messages to an account, activate and cancel. The account is handed in and handed back; it is
// checked as a whole, 40, before it is touched.
#![tactic(auto)]

ghost use Rattle.std.specs.Prelude.{◌<◌, ◌≡◌};
ghost use Rattle.places.specs.Places.{places};
ghost use Rattle.entitlements.specs.declared.Kind.TheVariants.{Activate, Cancel};
ghost use Rattle.entitlements.specs.Entitlements.{no_account, does, message};
ghost use Rattle.change.specs.Change.{stepped as Change·stepped};
ghost use Rattle.message.specs.NoAccount.{bad_at, bad_place};

use change::Step;
use entitlements::{Account, Answer, Answered, Kind};
use halves::Halves;
use places::PLACES;

// Whether a place is active with a code that is active at a lower place too, or with a content that is no
// code.
fn is_bad(account: &Account, i: usize) -> bool
    requires { i < places }
    ensures { result ≡ bad_at account.now i }
{
    if account.active[i] == 0 {
        return false;
    }
    let code = Halves {
        high: account.high[i],
        low: account.low[i],
    };
    places::code_place(&account.high, &account.low, &account.active, code) < i
        || !halves::is_code(code)
}

// Whether there is such a place.
fn bad_place(account: &Account) -> bool
    ensures { result ≡ bad_place account.now }
{
    (0..PLACES).any(|i| is_bad(account, i))
}

// Whether an account is refused by 40.
fn no_account(account: &Account) -> bool
    ensures { result ≡ no_account account.now }
{
    account.last > entitlements::LARGEST
        || places::count_active(&account.active) != account.total
        || bad_place(account)
}

// The account after a step.
fn stepped(account: Account, step: Step) -> Account
    ensures { result ≡ Change·stepped step account }
{
    let mut next = account;
    change::put_step(&mut next, step);
    next
}

// Sends a message of either kind, of any text and any number, to any account.
pub fn send(kind: Kind, account: Account, text: &[u8], number: u64) -> Answered
    ensures { does result ≡ message kind account text.now number }
{
    if no_account(&account) {
        return Answered {
            answer: Answer::Account,
            account,
        };
    }
    let change = change::change_of(kind, &account, text, number);
    Answered {
        answer: change.answer,
        account: stepped(account, change.step),
    }
}

// Activates a code.
pub fn activate(account: Account, text: &[u8], number: u64) -> Answered
    ensures { does result ≡ message Activate account text.now number }
{
    send(Kind::Activate, account, text, number)
}

// Cancels a code.
pub fn cancel(account: Account, text: &[u8], number: u64) -> Answered
    ensures { does result ≡ message Cancel account text.now number }
{
    send(Kind::Cancel, account, text, number)
}
