// The batch printer: what it prints for an input is put into lent bytes, and a program writes them.
#![tactic(auto)]

ghost use Rattle.std.specs.Prelude.{true, [], ◌∷◌, ◌++◌, ◌≡◌, ◌*◌, ◌≤◌, ◌<◌, length, take, drop};
ghost use Rattle.table.specs.Kind as kind;
ghost use Rattle.rules.specs.History.{heaviest};
ghost use Rattle.rules.specs.Picture.{plain};
ghost use Rattle.rules.specs.Steps.{empty};
ghost use Rattle.rules.specs.Draw.{draw};
ghost use Rattle.rules.specs.Sound.{picture};
ghost use Rattle.rules.specs.Ready.{Ready};
ghost use Rattle.page.specs.Form.{filled};
ghost use Rattle.page.specs.Put.{Room, Put};
ghost use Rattle.answers.specs.Numbers.{report_numbers};
ghost use Rattle.printed.specs.Printed.{refused, report_form, client_form, client_lines, in_range, places_in, session, printed};

use answers::{Refusal, Report, Stop};
use command::Command;
use table::LinkedTable;

// The largest window, and the words of its table and of its listing.
const PLACES: usize = 256;

const TABLE: usize = LinkedTable::HEADER_WORDS + LinkedTable::PLACE_WORDS * PLACES;

const PAIRS: usize = 2 * PLACES;

const BUDGET: u64 = 1000;

// The longest input: Q, then as many commands as the budget allows.
pub const INPUT: usize = 2 + Command::BYTES * BUDGET as usize;

// Bytes enough for what is printed.
pub const PAGE: usize = 4096;

// The line of a refusal.
pub fn refuse(out: &mut [u8], n: u32) -> usize
    requires { Room out.old 0 (refused n) }
    ensures { Put out.old 0 (refused n) out.new result }
{
    page::put_form(out, 0, b"refused #\n", &[u64::from(n)])
}

// The line of a report.
fn line(out: &mut [u8], r: Report) -> usize
    requires { Room out.old 0 (filled report_form (report_numbers r)) }
    ensures { Put out.old 0 (filled report_form (report_numbers r)) out.new result }
{
    page::put_form(
        out,
        0,
        b"stop # done # joined # evicted # passed # served # turned # idle #\n",
        &[
            u64::from(u32::from(r.stop)),
            r.done,
            r.joined,
            r.evicted,
            r.passed,
            r.served,
            r.turned,
            r.idle,
        ],
    )
}

// The line of a client, from place `at` on.
fn client(out: &mut [u8], at: usize, id: u32, count: u32) -> usize
    requires { Room out.old at (filled client_form (id ∷ count ∷ [])) }
    ensures { Put out.old at (filled client_form (id ∷ count ∷ [])) out.new result }
{
    page::put_form(out, at, b"# #\n", &[u64::from(id), u64::from(count)])
}

// A line for each id and count pair, from place `at` on.
pub fn lines(out: &mut [u8], at: usize, pairs: &[u32]) -> usize
    requires { Room out.old at (client_lines pairs.now) }
    ensures { Put out.old at (client_lines pairs.now) out.new result }
{
    let mut end = at;
    let mut rest = pairs;
    while let [id, count, more @ ..] = rest {
        end = client(out, end, *id, *count);
        rest = more;
    }
    end
}

// A line for each client that waits in the table, heaviest first, from place `at` on: q places hold no more than q clients.
fn list(t: &[u32], q: usize, pairs: &mut [u32], out: &mut [u8], at: usize) -> usize
    requires ready { Ready q t.now × (2 * q ≤ length pairs.old) }
    requires room { Room out.old at (client_lines (heaviest q (plain (picture t.now)))) }
    ensures { Put out.old at (client_lines (heaviest q (plain (picture t.now)))) out.new result }
{
    let n = questions::heaviest(t, q, q, pairs).unwrap();
    lines(out, at, &pairs[..2 * n])
}

// Runs the commands on a table of q places where nobody waits: the report, and then the clients.
fn carry_out(t: &mut [u32], q: usize, commands: &[u8], pairs: &mut [u32], out: &mut [u8]) -> usize
    requires q_value { (in_range q ≡ true) × (t.old ≡ draw (empty q)) }
    requires q_in_bounds { 2 * q ≤ length pairs.old }
    requires room { Room out.old 0 (session q commands.now) }
    ensures { Put out.old 0 (session q commands.now) out.new result }
{
    let s = spread::table();
    let at = line(out, run::run(t, q, &s, commands, BUDGET));
    list(t, q, pairs, out, at)
}

// The same from a fresh lay-out in the first words of t.
fn batch(t: &mut [u32], q: usize, commands: &[u8], pairs: &mut [u32], out: &mut [u8]) -> usize
    requires q_value { (in_range q ≡ true) × (kind.size q ≤ length t.old) }
    requires q_in_bounds { 2 * q ≤ length pairs.old }
    requires room { Room out.old 0 (session q commands.now) }
    ensures { Put out.old 0 (session q commands.now) out.new result }
{
    let _ = layout::lay_out(t, q);
    let words = LinkedTable::size(q);
    carry_out(&mut t[..words], q, commands, pairs, out)
}

// Q in the first 2 bytes, lowest first.
fn places(input: &[u8]) -> usize
    requires { 2 ≤ length input.now }
    ensures { result ≡ places_in input.now }
{
    usize::from(u16::from_le_bytes([input[0], input[1]]))
}

// Whether the printer takes a window of q places.
fn in_range(q: usize) -> bool
    ensures { result ≡ in_range q }
{
    (1..=PLACES).contains(&q)
}

// What is printed for an input: its bytes in front, the rest of the page as it was, and how many they are.
// The clause `part` follows from the others, and is what a caller needs to lend the part `out[..n]`.
pub fn print(input: &[u8], out: &mut [u8; PAGE]) -> usize
    ensures length { result ≡ length (printed input.now) }
    ensures bytes { out.new ≡ printed input.now ++ drop result out.old }
    ensures part { (result ≤ length out.new) × (result ≡ length (take result out.new)) }
{
    if INPUT < input.len() {
        return refuse(out, u32::from(Refusal::Overlong));
    }
    if input.len() < 2 {
        return refuse(out, u32::from(Stop::Cut));
    }
    let q = places(input);
    if !in_range(q) {
        return refuse(out, u32::from(Refusal::OutOfRange));
    }
    let mut t = [0u32; TABLE];
    let mut pairs = [0u32; PAIRS];
    batch(&mut t, q, &input[2..], &mut pairs, out)
}
