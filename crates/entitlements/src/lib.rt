// The account of entitlements: what it keeps, the messages that it takes and what it answers. The
// definitions are in specs/Entitlements.antt; `change` and `message` do the work.
#![tactic(auto)]

ghost use Rattle.std.specs.Prelude.{◌≡◌};
ghost use Rattle.entitlements.specs.Entitlements.{empty as Entitlements·empty, total_of, says};

use places::PLACES;

// The largest message number.
pub const LARGEST: u64 = 1099511627775;

// An account: for each place the two halves of a code and whether it is active (0 is free, any other
// number active), the last number processed, and the total, which is how many are active. It goes into
// each message and comes back. The three arrays stay apart, and no array of places: an account of arrays is
// among the forms that docs/STATEMENTS.md lists, and C lends the three (`lending`).
#[derive(Clone, Copy)]
pub struct Account {
    pub high: [u64; PLACES],
    pub low: [u64; PLACES],
    pub active: [u64; PLACES],
    pub last: u64,
    pub total: u64,
}

// The two messages.
#[derive(Drop)]
pub enum Kind {
    Activate,
    Cancel,
}

// What a message is answered: what was done, or what is refused (40 to 43).
#[derive(Drop)]
pub enum Answer {
    Activated,
    Already,
    Cancelled,
    NotActive,
    Old,
    Account,
    Number,
    Code,
    Full,
}

// The answer to a message, and the account afterwards.
#[derive(Drop)]
pub struct Answered {
    pub answer: Answer,
    pub account: Account,
}

// The empty account.
pub fn empty() -> Account
    ensures { result ≡ Entitlements·empty }
{
    Account {
        high: [0; PLACES],
        low: [0; PLACES],
        active: [0; PLACES],
        last: 0,
        total: 0,
    }
}

// How many codes are active: the total that is kept, also in an account that messages would refuse.
pub fn total(account: Account) -> u64
    ensures { result ≡ total_of account }
{
    account.total
}

// The number of a refusal, and 0 of any other answer.
pub fn answer_number(answer: Answer) -> u32
    ensures { result ≡ (says answer).number }
{
    match answer {
        Answer::Activated => 0,
        Answer::Already => 0,
        Answer::Cancelled => 0,
        Answer::NotActive => 0,
        Answer::Old => 0,
        Answer::Account => 40,
        Answer::Number => 41,
        Answer::Code => 42,
        Answer::Full => 43,
    }
}
