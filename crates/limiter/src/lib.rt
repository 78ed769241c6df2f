// The limiter's calls, as they are offered outside: none of them asks anything of what it is lent.
// A call makes the spread table, opens the lent words, and works in the part of them that is the table; what is refused is refused before anything is written.
#![tactic(auto)]

ghost use Rattle.std.specs.Prelude.{◌≡◌, [], ◌∷◌, ◌≤◌, length};
ghost use Rattle.table.specs.Regions.{altered};
ghost use Rattle.rules.specs.History as history;
ghost use Rattle.rules.specs.Steps as steps;
ghost use Rattle.rules.specs.Verdict.{afterwards};
ghost use Rattle.answers.specs.Numbers.{arrived_numbers, slid_numbers, served_numbers, listed_numbers, counted_numbers, told_numbers};
ghost use Rattle.limiter.specs.Lent.{waiting_in, numbers_of};
ghost use Rattle.limiter.specs.Questions.{listed_answer, listed_out, listed_number, counted_answer, counted_number, told_answer, told_number};
ghost use Rattle.limiter.specs.Calls.{arrive_choice, arrive_answer, arrive_number, choice_values, slide_leaves, slide_answer, slide_number, slide_values, serve_answer, serve_number, serve_values};
ghost use Rattle.limiter.specs.Runs.{run_answer, run_words, replay_answer, replay_words};

use answers::{Choice, Refusal, Replay, Report, Request};
use table::{LinkedTable, Ticket};

// Heaviest first: writes id and count of min(k, clients) clients.
pub fn heaviest(t: &[u32], k: usize, out: &mut [u32]) -> Result<usize, Refusal>
    ensures reply { result ≡ listed_answer k (length out.old) t.now }
    ensures numbers { listed_numbers result ≡ numbers_of (listed_number k (length out.old) t.now) (history.given k (waiting_in t.now) ∷ []) }
    ensures words { out.new ≡ listed_out history.heaviest k t.now out.old }
{
    let q = verdict::of(t, &spread::table())?;
    questions::heaviest(&t[..LinkedTable::size(q)], q, k, out)
}

// Lightest first.
pub fn lightest(t: &[u32], k: usize, out: &mut [u32]) -> Result<usize, Refusal>
    ensures reply { result ≡ listed_answer k (length out.old) t.now }
    ensures numbers { listed_numbers result ≡ numbers_of (listed_number k (length out.old) t.now) (history.given k (waiting_in t.now) ∷ []) }
    ensures words { out.new ≡ listed_out history.lightest k t.now out.old }
{
    let q = verdict::of(t, &spread::table())?;
    questions::lightest(&t[..LinkedTable::size(q)], q, k, out)
}

// How many requests of that client wait: 0 for an absent one.
pub fn count(t: &[u32], id: u32) -> Result<u32, Refusal>
    ensures reply { result ≡ counted_answer id t.now }
    ensures numbers { counted_numbers result ≡ numbers_of (counted_number t.now) (history.count_of (waiting_in t.now) id ∷ []) }
{
    let s = spread::table();
    let q = verdict::of(t, &s)?;
    Ok(questions::count(&t[..LinkedTable::size(q)], q, &s, id))
}

// The ticket of that client's oldest request.
pub fn oldest(t: &[u32], id: u32) -> Result<Ticket, Refusal>
    ensures reply { result ≡ told_answer history.oldest_ticket id t.now }
    ensures numbers { told_numbers result ≡ numbers_of (told_number id t.now) (history.oldest_ticket (waiting_in t.now) id ∷ []) }
{
    let s = spread::table();
    let q = verdict::of(t, &s)?;
    questions::oldest(&t[..LinkedTable::size(q)], q, &s, id)
}

// The ticket of its newest.
pub fn newest(t: &[u32], id: u32) -> Result<Ticket, Refusal>
    ensures reply { result ≡ told_answer history.newest_ticket id t.now }
    ensures numbers { told_numbers result ≡ numbers_of (told_number id t.now) (history.newest_ticket (waiting_in t.now) id ∷ []) }
{
    let s = spread::table();
    let q = verdict::of(t, &s)?;
    questions::newest(&t[..LinkedTable::size(q)], q, &s, id)
}

// A request arrives: it joins, a request of the heaviest client leaves for it, or its client is turned away.
pub fn arrive(t: &mut [u32], id: u32, ticket: Ticket) -> Result<Choice, Refusal>
    ensures reply { result ≡ arrive_answer id t.old }
    ensures numbers { arrived_numbers result ≡ numbers_of (arrive_number t.old) (choice_values (arrive_choice id t.old)) }
    ensures words { t.new ≡ afterwards (λ P. steps.arrived P id ticket) t.old }
    ensures few { altered t.old t.new ≤ 47 }
{
    let s = spread::table();
    let q = verdict::of(t, &s)?;
    Ok(steps::arrive(&mut t[..LinkedTable::size(q)], q, &s, id, ticket))
}

// A request joins; where the window is full, the front request leaves first and is the reply.
pub fn slide(t: &mut [u32], id: u32, ticket: Ticket) -> Result<Option<Request>, Refusal>
    ensures reply { result ≡ slide_answer t.old }
    ensures numbers { slid_numbers result ≡ numbers_of (slide_number t.old) (slide_values (slide_leaves t.old)) }
    ensures words { t.new ≡ afterwards (λ P. steps.slid P id ticket) t.old }
    ensures few { altered t.old t.new ≤ 48 }
{
    let s = spread::table();
    let q = verdict::of(t, &s)?;
    Ok(steps::slide(&mut t[..LinkedTable::size(q)], q, &s, id, ticket))
}

// The front request leaves and is the reply; where nobody waits, no word alters.
pub fn serve(t: &mut [u32]) -> Result<Request, Refusal>
    ensures reply { result ≡ serve_answer t.old }
    ensures numbers { served_numbers result ≡ numbers_of (serve_number t.old) (serve_values (history.served (waiting_in t.old))) }
    ensures words { t.new ≡ afterwards (steps.served) t.old }
    ensures few { altered t.old t.new ≤ 24 }
{
    let s = spread::table();
    let q = verdict::of(t, &s)?;
    steps::serve(&mut t[..LinkedTable::size(q)], q, &s).ok_or(Refusal::NobodyWaits)
}

// Carries out commands of nine bytes until one of the four stops; the table is checked once.
pub fn run(t: &mut [u32], bytes: &[u8], budget: u64) -> Result<Report, Refusal>
    ensures reply { result ≡ run_answer budget bytes.now t.old }
    ensures words { t.new ≡ run_words budget bytes.now t.old }
{
    let s = spread::table();
    let q = verdict::of(t, &s)?;
    Ok(run::run(&mut t[..LinkedTable::size(q)], q, &s, bytes, budget))
}

// Replays the blocks of a recording, of which the first must have that number, until one fails a test; the table is checked once.
pub fn replay(t: &mut [u32], recording: &[u8], first: u64) -> Result<Replay, Refusal>
    ensures reply { result ≡ replay_answer first recording.now t.old }
    ensures words { t.new ≡ replay_words first recording.now t.old }
{
    let s = spread::table();
    let q = verdict::of(t, &s)?;
    Ok(replayer::replay(&mut t[..LinkedTable::size(q)], q, &s, recording, first))
}
