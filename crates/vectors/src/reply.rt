// A command carried out through the public calls, and its reply in words.
use answers::{Choice, Refusal, Request};

#[derive(Clone, Copy)]
pub enum Command {
    Arrive { id: u32, ticket: u32 },
    Slide { id: u32, ticket: u32 },
    Serve,
}

impl Command {
    // The command whose name has that second letter. A number that is too large for a word is taken as 0.
    pub fn of(letter: u8, id: u64, ticket: u64) -> Command {
        let id = report::narrow(id);
        let ticket = report::narrow(ticket);
        match letter {
            b'r' => Command::Arrive { id, ticket },
            b'l' => Command::Slide { id, ticket },
            _ => Command::Serve,
        }
    }
}

// The request that left.
fn left(rt: &impl Print, how: &[u8], r: Request) {
    report::field(rt, how, r.id);
    report::field(rt, b" ", r.ticket);
}

fn refused(rt: &impl Print, refusal: Refusal) {
    report::field(rt, b"refused ", u32::from(refusal));
}

fn arrived(rt: &impl Print, answer: Result<Choice, Refusal>) {
    match answer {
        Ok(Choice::Joined) => report::text(rt, b"joined 0 0"),
        Ok(Choice::Evicted(r)) => left(rt, b"evicted ", r),
        Ok(Choice::Turned) => report::text(rt, b"turned 0 0"),
        Err(refusal) => refused(rt, refusal),
    }
}

fn slid(rt: &impl Print, answer: Result<Option<Request>, Refusal>) {
    match answer {
        Ok(None) => report::text(rt, b"joined 0 0"),
        Ok(Some(r)) => left(rt, b"passed ", r),
        Err(refusal) => refused(rt, refusal),
    }
}

fn served(rt: &impl Print, answer: Result<Request, Refusal>) {
    match answer {
        Ok(r) => left(rt, b"served ", r),
        Err(Refusal::NobodyWaits) => report::text(rt, b"nobody 0 0"),
        Err(refusal) => refused(rt, refusal),
    }
}

// The reply to a command.
pub fn of(rt: &impl Print, t: &mut [u32], command: Command) {
    match command {
        Command::Arrive { id, ticket } => arrived(rt, limiter::arrive(t, id, ticket)),
        Command::Slide { id, ticket } => slid(rt, limiter::slide(t, id, ticket)),
        Command::Serve => served(rt, limiter::serve(t)),
    }
}
