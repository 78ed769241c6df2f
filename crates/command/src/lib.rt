// What a command is: nine bytes, which of them are one, and what they say. Whatever reads commands, reads them here.
#![tactic(auto)]

ghost use Rattle.std.specs.Prelude.{◌≡◌, ◌+◌, ◌≤◌, length, drop};
ghost use Rattle.rules.specs.Run.{command_bytes, four_bytes, known, kind_of, id_in, ticket_in};
ghost use Rattle.command.specs.Bytes.{command_at, as_command, command_of, command_in, bytes_of};

use answers::Request;

// What nine bytes say, whether they are a command or not: a kind, an id and a ticket.
#[derive(Clone, Copy, Debug, PartialEq, Eq)]
pub struct NineBytes {
    pub kind: u8,
    pub id: u32,
    pub ticket: u32,
}

// A request arrives, a request slides in, or the front one is served.
#[derive(Clone, Copy, Debug, PartialEq, Eq)]
pub enum Command {
    Arrive(Request),
    Slide(Request),
    Serve,
}

impl Command {
    pub const BYTES: usize = 9;

    // The kinds, as the first byte has them.
    pub const ARRIVE: u32 = 1;

    pub const SLIDE: u32 = 2;

    pub const SERVE: u32 = 3;

    // The command that a kind, an id and a ticket are, if they are one.
    pub fn of(kind: u32, id: u32, ticket: u32) -> Option<Command>
        ensures { result ≡ command_of kind id ticket }
    {
        match kind {
            Command::ARRIVE => Some(Command::Arrive(Request { id, ticket })),
            Command::SLIDE => Some(Command::Slide(Request { id, ticket })),
            Command::SERVE if id == 0 && ticket == 0 => Some(Command::Serve),
            _ => None,
        }
    }

    // Its nine bytes.
    pub fn bytes(self) -> [u8; Command::BYTES]
        ensures { result ≡ bytes_of (as_command self) }
    {
        let (kind, id, ticket) = match self {
            Command::Arrive(r) => (Command::ARRIVE, r.id, r.ticket),
            Command::Slide(r) => (Command::SLIDE, r.id, r.ticket),
            Command::Serve => (Command::SERVE, 0, 0),
        };
        let [a, b, c, d] = id.to_le_bytes();
        let [e, f, g, h] = ticket.to_le_bytes();
        [kind as u8, a, b, c, d, e, f, g, h]
    }
}

// Four bytes, lowest first.
pub fn number(s: &[u8], at: usize) -> u32
    requires { at + 4 ≤ length s.now }
    ensures { result ≡ four_bytes (drop at s.now) }
{
    u32::from_le_bytes([s[at], s[at + 1], s[at + 2], s[at + 3]])
}

// The nine bytes at a place.
pub fn command_at(s: &[u8], at: usize) -> NineBytes
    requires { at + command_bytes ≤ length s.now }
    ensures { result ≡ command_at (drop at s.now) }
{
    NineBytes {
        kind: s[at],
        id: number(s, at + 1),
        ticket: number(s, at + 5),
    }
}

// The command that they are, if they are one.
pub fn known_at(s: &[u8], at: usize) -> Option<Command>
    requires { at + command_bytes ≤ length s.now }
    ensures { result ≡ command_in (drop at s.now) }
{
    let said = command_at(s, at);
    Command::of(u32::from(said.kind), said.id, said.ticket)
}

// Whether they are a command, told without a branch, for whoever tests many: no processor foretells their kinds.
pub fn is_command_at(s: &[u8], at: usize) -> bool
    requires { at + command_bytes ≤ length s.now }
    ensures { result ≡ known (kind_of (drop at s.now)) (id_in (drop at s.now)) (ticket_in (drop at s.now)) }
{
    let said = command_at(s, at);
    let kind = u32::from(said.kind);
    let empty = (said.id == 0) & (said.ticket == 0);
    (kind == Command::ARRIVE) | ((kind == Command::SLIDE) | ((kind == Command::SERVE) & empty))
}
