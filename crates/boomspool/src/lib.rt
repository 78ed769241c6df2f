// The calls that a C server links: numbers, slices and structs by value, each thin over the proved call of the same name.
// None asks anything of what it is lent; include/boomspool.h declares them for C.
#![tactic(auto)]

ghost use Rattle.std.specs.Prelude.{◌≡◌, [], ◌∷◌, ◌≤◌, length};
ghost use Rattle.table.specs.Regions.{altered};
ghost use Rattle.rules.specs.History as history;
ghost use Rattle.rules.specs.Steps as steps;
ghost use Rattle.rules.specs.Verdict.{lay_out_number, laid_out, afterwards};
ghost use Rattle.answers.specs.Numbers.{ran_numbers, replayed_numbers};
ghost use Rattle.day.specs.Day.{after_run};
ghost use Rattle.limiter.specs.Lent.{waiting_in, numbers_of};
ghost use Rattle.limiter.specs.Questions.{listed_answer, listed_out, listed_number, counted_answer, counted_number, told_answer, told_number};
ghost use Rattle.limiter.specs.Calls.{arrive_choice, arrive_answer, arrive_number, choice_values, slide_leaves, slide_answer, slide_number, slide_values, serve_answer, serve_number, serve_values};
ghost use Rattle.limiter.specs.Runs.{run_answer, run_words, replay_answer, replay_words};
ghost use Rattle.recorder.specs.Record.{record_number, record_block};
ghost use Rattle.boomspool.specs.Replies.{words_of, arrived_struct, arrived_fields, slid_struct, slid_fields, served_struct, served_fields, listed_struct, listed_fields, counted_struct, counted_fields, told_struct, told_fields, report_struct, ran_struct, ran_fields, replay_struct, replayed_struct, replayed_fields};

use answers::{Choice, Refusal, Replay, Report, Request};
use day::Day;
use recording::Block;
use table::{LinkedTable, Ticket};

// The reply to an arrival: what happened, and the request that left for it.
#[repr(C)]
#[derive(Clone, Copy, Debug, Default, PartialEq, Eq)]
pub struct BoomspoolArrived {
    pub number: u32,
    pub happened: u32,
    pub id: u32,
    pub ticket: Ticket,
}

// The reply to a slide: whether a request passed, and which.
#[repr(C)]
#[derive(Clone, Copy, Debug, Default, PartialEq, Eq)]
pub struct BoomspoolSlid {
    pub number: u32,
    pub passed: u32,
    pub id: u32,
    pub ticket: Ticket,
}

// The reply to serve: the request that left.
#[repr(C)]
#[derive(Clone, Copy, Debug, Default, PartialEq, Eq)]
pub struct BoomspoolServed {
    pub number: u32,
    pub id: u32,
    pub ticket: Ticket,
}

// The reply to a listing: how many pairs were written.
#[repr(C)]
#[derive(Clone, Copy, Debug, Default, PartialEq, Eq)]
pub struct BoomspoolListed {
    pub number: u32,
    pub pairs: usize,
}

// The reply to count.
#[repr(C)]
#[derive(Clone, Copy, Debug, Default, PartialEq, Eq)]
pub struct BoomspoolCounted {
    pub number: u32,
    pub count: u32,
}

// The reply to oldest and newest.
#[repr(C)]
#[derive(Clone, Copy, Debug, Default, PartialEq, Eq)]
pub struct BoomspoolTold {
    pub number: u32,
    pub ticket: Ticket,
}

// What a run reports: where it stopped, how many commands it carried out, and the six totals.
#[repr(C)]
#[derive(Clone, Copy, Debug, Default, PartialEq, Eq)]
pub struct BoomspoolRan {
    pub stop: u32,
    pub done: u64,
    pub joined: u64,
    pub evicted: u64,
    pub passed: u64,
    pub served: u64,
    pub turned: u64,
    pub idle: u64,
}

// What a replay reports: where it stopped, how many blocks it replayed and commands it carried out, and the six totals.
#[repr(C)]
#[derive(Clone, Copy, Debug, Default, PartialEq, Eq)]
pub struct BoomspoolReplayed {
    pub stop: u32,
    pub blocks: u64,
    pub done: u64,
    pub joined: u64,
    pub evicted: u64,
    pub passed: u64,
    pub served: u64,
    pub turned: u64,
    pub idle: u64,
}

// The answers of the limiter's calls as the structs that C gets. The numbers of `happened` and `passed` are the C interface (include/boomspool.h).

impl From<Result<Choice, Refusal>> for BoomspoolArrived {
    ghost from_gives = { λ answer reply. reply ≡ arrived_struct answer };

    fn from(answer: Result<Choice, Refusal>) -> BoomspoolArrived {
        match answer {
            Ok(Choice::Joined) => BoomspoolArrived {
                happened: 1,
                ..BoomspoolArrived::default()
            },
            Ok(Choice::Evicted(Request { id, ticket })) => BoomspoolArrived {
                number: 0,
                happened: 2,
                id,
                ticket,
            },
            Ok(Choice::Turned) => BoomspoolArrived {
                happened: 3,
                ..BoomspoolArrived::default()
            },
            Err(refusal) => BoomspoolArrived {
                number: u32::from(refusal),
                ..BoomspoolArrived::default()
            },
        }
    }
}

impl From<Result<Option<Request>, Refusal>> for BoomspoolSlid {
    ghost from_gives = { λ answer reply. reply ≡ slid_struct answer };

    fn from(answer: Result<Option<Request>, Refusal>) -> BoomspoolSlid {
        match answer {
            Ok(None) => BoomspoolSlid::default(),
            Ok(Some(Request { id, ticket })) => BoomspoolSlid {
                number: 0,
                passed: 1,
                id,
                ticket,
            },
            Err(refusal) => BoomspoolSlid {
                number: u32::from(refusal),
                ..BoomspoolSlid::default()
            },
        }
    }
}

impl From<Result<Request, Refusal>> for BoomspoolServed {
    ghost from_gives = { λ answer reply. reply ≡ served_struct answer };

    fn from(answer: Result<Request, Refusal>) -> BoomspoolServed {
        match answer {
            Ok(Request { id, ticket }) => BoomspoolServed {
                number: 0,
                id,
                ticket,
            },
            Err(refusal) => BoomspoolServed {
                number: u32::from(refusal),
                ..BoomspoolServed::default()
            },
        }
    }
}

impl From<Result<usize, Refusal>> for BoomspoolListed {
    ghost from_gives = { λ answer reply. reply ≡ listed_struct answer };

    fn from(answer: Result<usize, Refusal>) -> BoomspoolListed {
        match answer {
            Ok(pairs) => BoomspoolListed { number: 0, pairs },
            Err(refusal) => BoomspoolListed {
                number: u32::from(refusal),
                pairs: 0,
            },
        }
    }
}

impl From<Result<u32, Refusal>> for BoomspoolCounted {
    ghost from_gives = { λ answer reply. reply ≡ counted_struct answer };

    fn from(answer: Result<u32, Refusal>) -> BoomspoolCounted {
        match answer {
            Ok(count) => BoomspoolCounted { number: 0, count },
            Err(refusal) => BoomspoolCounted {
                number: u32::from(refusal),
                count: 0,
            },
        }
    }
}

impl From<Result<Ticket, Refusal>> for BoomspoolTold {
    ghost from_gives = { λ answer reply. reply ≡ told_struct answer };

    fn from(answer: Result<Ticket, Refusal>) -> BoomspoolTold {
        match answer {
            Ok(ticket) => BoomspoolTold { number: 0, ticket },
            Err(refusal) => BoomspoolTold {
                number: u32::from(refusal),
                ticket: 0,
            },
        }
    }
}

impl From<Report> for BoomspoolRan {
    ghost from_gives = { λ report reply. reply ≡ report_struct report };

    fn from(report: Report) -> BoomspoolRan {
        BoomspoolRan {
            stop: u32::from(report.stop),
            done: report.done,
            joined: report.joined,
            evicted: report.evicted,
            passed: report.passed,
            served: report.served,
            turned: report.turned,
            idle: report.idle,
        }
    }
}

// A refused run reports its number in the stop's place, and nothing carried out.
impl From<Result<Report, Refusal>> for BoomspoolRan {
    ghost from_gives = { λ answer reply. reply ≡ ran_struct answer };

    fn from(answer: Result<Report, Refusal>) -> BoomspoolRan {
        match answer {
            Ok(report) => BoomspoolRan::from(report),
            Err(refusal) => BoomspoolRan {
                stop: u32::from(refusal),
                ..BoomspoolRan::default()
            },
        }
    }
}

impl From<Replay> for BoomspoolReplayed {
    ghost from_gives = { λ replay reply. reply ≡ replay_struct replay };

    fn from(replay: Replay) -> BoomspoolReplayed {
        BoomspoolReplayed {
            stop: u32::from(replay.report.stop),
            blocks: replay.blocks,
            done: replay.report.done,
            joined: replay.report.joined,
            evicted: replay.report.evicted,
            passed: replay.report.passed,
            served: replay.report.served,
            turned: replay.report.turned,
            idle: replay.report.idle,
        }
    }
}

// A refused replay likewise.
impl From<Result<Replay, Refusal>> for BoomspoolReplayed {
    ghost from_gives = { λ answer reply. reply ≡ replayed_struct answer };

    fn from(answer: Result<Replay, Refusal>) -> BoomspoolReplayed {
        match answer {
            Ok(replay) => BoomspoolReplayed::from(replay),
            Err(refusal) => BoomspoolReplayed {
                stop: u32::from(refusal),
                ..BoomspoolReplayed::default()
            },
        }
    }
}

// The words that a table of q places takes, 0 where q is out of range.
#[unsafe(no_mangle)]
pub extern "C" fn boomspool_words(q: usize) -> usize
    ensures { result ≡ words_of q }
{
    if LinkedTable::in_range(q) {
        LinkedTable::size(q)
    } else {
        0
    }
}

// Lays a table of q places out: 0, or 1 where q is out of range, 2 where t is too short.
#[unsafe(no_mangle)]
pub extern "C" fn boomspool_lay_out(t: &mut [u32], q: usize) -> u32
    ensures number { result ≡ lay_out_number q (length t.old) }
    ensures words { t.new ≡ laid_out q t.old }
{
    answers::number(layout::lay_out(t, q))
}

// A request arrives: it joins, a request of the heaviest client leaves for it, or its client is turned away.
#[unsafe(no_mangle)]
pub extern "C" fn boomspool_arrive(t: &mut [u32], id: u32, ticket: Ticket) -> BoomspoolArrived
    ensures reply { result ≡ arrived_struct (arrive_answer id t.old) }
    ensures numbers { arrived_fields result ≡ numbers_of (arrive_number t.old) (choice_values (arrive_choice id t.old)) }
    ensures words { t.new ≡ afterwards (λ P. steps.arrived P id ticket) t.old }
    ensures few { altered t.old t.new ≤ 47 }
{
    limiter::arrive(t, id, ticket).into()
}

// A request joins; where the window is full, the front request passes first.
#[unsafe(no_mangle)]
pub extern "C" fn boomspool_slide(t: &mut [u32], id: u32, ticket: Ticket) -> BoomspoolSlid
    ensures reply { result ≡ slid_struct (slide_answer t.old) }
    ensures numbers { slid_fields result ≡ numbers_of (slide_number t.old) (slide_values (slide_leaves t.old)) }
    ensures words { t.new ≡ afterwards (λ P. steps.slid P id ticket) t.old }
    ensures few { altered t.old t.new ≤ 48 }
{
    limiter::slide(t, id, ticket).into()
}

// The front request leaves and is the reply.
#[unsafe(no_mangle)]
pub extern "C" fn boomspool_serve(t: &mut [u32]) -> BoomspoolServed
    ensures reply { result ≡ served_struct (serve_answer t.old) }
    ensures numbers { served_fields result ≡ numbers_of (serve_number t.old) (serve_values (history.served (waiting_in t.old))) }
    ensures words { t.new ≡ afterwards (steps.served) t.old }
    ensures few { altered t.old t.new ≤ 24 }
{
    limiter::serve(t).into()
}

// Id and count of the k heaviest clients, heaviest first.
#[unsafe(no_mangle)]
pub extern "C" fn boomspool_heaviest(t: &[u32], k: usize, out: &mut [u32]) -> BoomspoolListed
    ensures reply { result ≡ listed_struct (listed_answer k (length out.old) t.now) }
    ensures numbers { listed_fields result ≡ numbers_of (listed_number k (length out.old) t.now) (history.given k (waiting_in t.now) ∷ []) }
    ensures words { out.new ≡ listed_out history.heaviest k t.now out.old }
{
    limiter::heaviest(t, k, out).into()
}

// Id and count of the k lightest clients, lightest first.
#[unsafe(no_mangle)]
pub extern "C" fn boomspool_lightest(t: &[u32], k: usize, out: &mut [u32]) -> BoomspoolListed
    ensures reply { result ≡ listed_struct (listed_answer k (length out.old) t.now) }
    ensures numbers { listed_fields result ≡ numbers_of (listed_number k (length out.old) t.now) (history.given k (waiting_in t.now) ∷ []) }
    ensures words { out.new ≡ listed_out history.lightest k t.now out.old }
{
    limiter::lightest(t, k, out).into()
}

// How many requests of that client wait.
#[unsafe(no_mangle)]
pub extern "C" fn boomspool_count(t: &[u32], id: u32) -> BoomspoolCounted
    ensures reply { result ≡ counted_struct (counted_answer id t.now) }
    ensures numbers { counted_fields result ≡ numbers_of (counted_number t.now) (history.count_of (waiting_in t.now) id ∷ []) }
{
    limiter::count(t, id).into()
}

// The ticket of that client's oldest request.
#[unsafe(no_mangle)]
pub extern "C" fn boomspool_oldest(t: &[u32], id: u32) -> BoomspoolTold
    ensures reply { result ≡ told_struct (told_answer history.oldest_ticket id t.now) }
    ensures numbers { told_fields result ≡ numbers_of (told_number id t.now) (history.oldest_ticket (waiting_in t.now) id ∷ []) }
{
    limiter::oldest(t, id).into()
}

// The ticket of its newest.
#[unsafe(no_mangle)]
pub extern "C" fn boomspool_newest(t: &[u32], id: u32) -> BoomspoolTold
    ensures reply { result ≡ told_struct (told_answer history.newest_ticket id t.now) }
    ensures numbers { told_fields result ≡ numbers_of (told_number id t.now) (history.newest_ticket (waiting_in t.now) id ∷ []) }
{
    limiter::newest(t, id).into()
}

// Carries out commands of nine bytes until one of the four stops; the table is checked once.
#[unsafe(no_mangle)]
pub extern "C" fn boomspool_run(t: &mut [u32], commands: &[u8], budget: u64) -> BoomspoolRan
    ensures reply { result ≡ ran_struct (run_answer budget commands.now t.old) }
    ensures numbers { ran_fields result ≡ ran_numbers (run_answer budget commands.now t.old) }
    ensures words { t.new ≡ run_words budget commands.now t.old }
{
    limiter::run(t, commands, budget).into()
}

// The same, and the day record is brought up to date where it stands; a refused run leaves it.
#[unsafe(no_mangle)]
pub extern "C" fn boomspool_run_day(
    t: &mut [u32],
    commands: &[u8],
    budget: u64,
    day: &mut [u64; Day::TOTALS],
) -> BoomspoolRan
    ensures reply { result ≡ ran_struct (run_answer budget commands.now t.old) }
    ensures numbers { ran_fields result ≡ ran_numbers (run_answer budget commands.now t.old) }
    ensures words { t.new ≡ run_words budget commands.now t.old }
    ensures totals { day.new ≡ after_run day.old (run_answer budget commands.now t.old) }
{
    let answer = limiter::run(t, commands, budget);
    day::bring_up(day, answer);
    answer.into()
}

// Records one command more in the block in the making, after so many: the number.
#[unsafe(no_mangle)]
pub extern "C" fn boomspool_record(
    block: &mut [u8; Block::BYTES],
    recorded: u64,
    kind: u32,
    id: u32,
    ticket: u32,
) -> u32
    ensures number { result ≡ record_number recorded kind id ticket }
    ensures bytes { block.new ≡ record_block recorded kind id ticket block.old }
{
    answers::number(recorder::record(block, recorded, kind, id, ticket))
}

// Replays the blocks of a recording, of which the first must have that number, until one fails a test; the table is checked once.
#[unsafe(no_mangle)]
pub extern "C" fn boomspool_replay(t: &mut [u32], recording: &[u8], first: u64) -> BoomspoolReplayed
    ensures reply { result ≡ replayed_struct (replay_answer first recording.now t.old) }
    ensures numbers { replayed_fields result ≡ replayed_numbers (replay_answer first recording.now t.old) }
    ensures words { t.new ≡ replay_words first recording.now t.old }
{
    limiter::replay(t, recording, first).into()
}
