// What the calls answer. An engine answers on a sound table, which no table's refusal can meet; the calls offered outside answer that, or a refusal.
#![tactic(auto)]

ghost use Rattle.std.specs.Prelude.{◌≡◌};
ghost use Rattle.answers.specs.Numbers.{refusal_number, done_number, stop_number};

use table::Ticket;

// Why a call is refused, each with its number.
#[derive(Clone, Copy, Debug, PartialEq, Eq)]
pub enum Refusal {
    OutOfRange = 1,
    TooShort = 2,
    Unsound = 3,
    NoRoom = 4,
    NobodyWaits = 5,
    NoClient = 6,
    Overlong = 9,
    Full = 18,
    ShortBlock = 20,
    WrongCheck = 21,
    WrongNumber = 22,
    WrongUse = 23,
    BadRecorded = 24,
}

impl From<Refusal> for u32 {
    ghost from_gives = { λ x n. n ≡ refusal_number x };

    fn from(refusal: Refusal) -> u32 {
        refusal as u32
    }
}

// A request: a client id and a ticket.
#[derive(Clone, Copy, Debug, PartialEq, Eq)]
pub struct Request {
    pub id: u32,
    pub ticket: Ticket,
}

// What an arrival comes to on a sound table.
#[derive(Clone, Copy, Debug, PartialEq, Eq)]
pub enum Choice {
    Joined,
    Evicted(Request),
    Turned,
}

// Where a run or a replay stops: no bytes are left, the budget is spent, under nine bytes are left, the bytes are no command, or a block is refused.
#[derive(Clone, Copy, Debug, PartialEq, Eq)]
pub enum Stop {
    Ended,
    Spent,
    Cut,
    BadCommand,
    Block(Refusal),
}

impl From<Stop> for u32 {
    ghost from_gives = { λ s n. n ≡ stop_number s };

    fn from(stop: Stop) -> u32 {
        match stop {
            Stop::Ended => 0,
            Stop::Spent => 1,
            Stop::Cut => 7,
            Stop::BadCommand => 8,
            Stop::Block(refusal) => u32::from(refusal),
        }
    }
}

// What a run reports: where it stopped, how many commands it carried out, and the six totals.
#[derive(Clone, Copy, Debug, PartialEq, Eq)]
pub struct Report {
    pub stop: Stop,
    pub done: u64,
    pub joined: u64,
    pub evicted: u64,
    pub passed: u64,
    pub served: u64,
    pub turned: u64,
    pub idle: u64,
}

// What a replay reports: how many blocks it replayed, and of their commands what a run reports, with the replay's stop.
#[derive(Clone, Copy, Debug, PartialEq, Eq)]
pub struct Replay {
    pub blocks: u64,
    pub report: Report,
}

// The number of a call that answers nothing but its refusal: 0 for none.
pub fn number(done: Result<(), Refusal>) -> u32
    ensures { result ≡ done_number done }
{
    match done {
        Ok(()) => 0,
        Err(refusal) => u32::from(refusal),
    }
}
