// Replays a recording from standard input on a fresh table, piece by piece, so that memory does not grow with the recording, and
// prints what it reports and who waits then.
#![tactic(auto)]

ghost use Rattle.std.specs.Prelude.{◌≡◌, ◌+◌, ◌*◌, ◌≤◌, min, length, take};
ghost use Rattle.table.specs.Kind as table;
ghost use Rattle.recording.specs.Kind as kind;
ghost use Rattle.page.specs.Put.{Put};
ghost use Rattle.printed.specs.Printed.{client_lines};
ghost use Rattle.replay.specs.Counted.{Counted};
ghost use Rattle.replay.specs.Shown.{replay_line, waiting_lines, shown};

use answers::{Refusal, Replay, Stop};
use recording::Block;
use std::rt::Env;
use table::LinkedTable;

// The words of the largest table and of its listing, and a page for its lines: the report's, and one for each place.
const TABLE: usize = LinkedTable::HEADER_WORDS + LinkedTable::PLACE_WORDS * LinkedTable::LARGEST;

const PAIRS: usize = 2 * LinkedTable::LARGEST;

const PAGE: usize = 256 + 44 * LinkedTable::LARGEST;

// The blocks of a piece.
const PIECE: u64 = 64;

// The longest argument that Linux passes has a byte less.
const ARGUMENT: usize = 131072;

// Argument i, where it is a decimal number.
fn argument(rt: &impl Env, i: usize) -> Option<u64> {
    let mut text = [0u8; ARGUMENT];
    let n = report::argument(rt, i, &mut text);
    let digits = &text[..n];
    report::is_decimal(digits).then(|| report::number(digits))
}

fn nothing(stop: Stop) -> Replay
    ensures { Counted result × (result.blocks ≡ 0) }
{
    Replay {
        blocks: 0,
        report: replayer::nothing(stop),
    }
}

// The report on bytes of which the first block must have that number; a table that is refused reports that, as it does to a host.
fn replayed(t: &mut [u32], bytes: &[u8], first: u64) -> Replay
    ensures { Counted result × (kind.block_bytes * result.blocks ≤ length bytes.now) }
{
    match limiter::replay(t, bytes, first) {
        Ok(replay) => replay,
        Err(refusal) => nothing(Stop::Block(refusal)),
    }
}

// Reads a piece, as far as there is one, and replays it.
fn piece(rt: &(impl Input + Eprint), t: &mut [u32], bytes: &mut [u8], first: u64) -> Replay
    ensures { Counted result × (kind.block_bytes * result.blocks ≤ length bytes.old) }
{
    let n = report::input(rt, bytes);
    replayed(t, &bytes[..n], first)
}

// The next piece, of so many blocks.
fn next(rt: &(impl Input + Eprint), t: &mut [u32], first: u64, blocks: u64) -> Replay
    requires { blocks ≤ 64 }
    ensures { Counted result × (result.blocks ≤ blocks) }
{
    let mut bytes = [0u8; Block::BYTES * PIECE as usize];
    let end = Block::BYTES * blocks as usize;
    piece(rt, t, &mut bytes[..end], first)
}

// One piece's report behind another's.
fn both(a: Replay, b: Replay) -> Replay
    requires counted { Counted a × Counted b }
    requires blocks_bound { a.blocks + b.blocks ≤ 2 * kind.blocks }
    ensures { Counted result × (result.blocks ≡ a.blocks + b.blocks) }
{
    Replay {
        blocks: a.blocks + b.blocks,
        report: replayer::both(a.report, b.report),
    }
}

// Replays at most so many blocks, piece by piece. Where a piece has fewer than were asked for, a block failed or the input ended.
fn replay(rt: &(impl Input + Eprint), t: &mut [u32], most: u64) -> Replay
    requires { most ≤ 1 + kind.blocks }
{
    let mut all = nothing(Stop::Ended);
    while all.blocks < most {
        let wanted = PIECE.min(most - all.blocks);
        let more = next(rt, t, all.blocks, wanted);
        all = both(all, more);
        if more.blocks < wanted {
            return all;
        }
    }
    all
}

// The line of a report: at most 256 bytes.
fn line(out: &mut [u8], r: Replay) -> usize
    requires { 256 ≤ length out.old }
    ensures { Put out.old 0 (replay_line r) out.new result × (result ≤ 256) }
{
    let s = r.report;
    page::put_form(
        out,
        0,
        b"stop # blocks # done # joined # evicted # passed # served # turned # idle #\n",
        &[
            u64::from(u32::from(s.stop)),
            r.blocks,
            s.done,
            s.joined,
            s.evicted,
            s.passed,
            s.served,
            s.turned,
            s.idle,
        ],
    )
}

// A line for each id and count pair, from place `at` on: a pair takes at most 44 bytes.
fn lines(out: &mut [u8], at: usize, pairs: &[u32]) -> usize
    requires { at + 22 * length pairs.now ≤ length out.old }
    ensures { Put out.old at (client_lines pairs.now) out.new result }
{
    printer::lines(out, at, pairs)
}

// A line for each client that waits in the table, heaviest first, from place `at` on.
fn waiting(t: &[u32], pairs: &mut [u32], out: &mut [u8], at: usize) -> usize
    requires pairs_len { length pairs.old ≡ 2 * table.largest }
    requires largest_in_bounds { at + 44 * table.largest ≤ length out.old }
    ensures { Put out.old at (waiting_lines t.now) out.new result }
{
    match limiter::heaviest(t, LinkedTable::LARGEST, pairs) {
        Ok(n) => lines(out, at, &pairs[..2 * n]),
        Err(_) => at,
    }
}

// What is shown of a replay that left this table.
fn show(t: &[u32], r: Replay, out: &mut [u8; PAGE]) -> usize
    ensures bytes { Put out.old 0 (shown t.now r) out.new result }
    ensures part { (result ≤ length out.new) × (result ≡ length (take result out.new)) }
{
    let mut pairs = [0u32; PAIRS];
    let at = line(out, r);
    waiting(t, &mut pairs, out, at)
}

fn refuse(rt: &(impl Print + Eprint), refusal: Refusal) {
    let mut line = [0u8; 32];
    let n = printer::refuse(&mut line, u32::from(refusal));
    report::output(rt, &line[..n]);
}

// A recording has at most 65,536 blocks. One more is replayed where it is there, since that fails.
fn evening(rt: &(impl Input + Print + Eprint), places: u64, blocks: u64) {
    let mut t = [0u32; TABLE];
    let mut page = [0u8; PAGE];
    if let Err(refusal) = layout::lay_out(&mut t, places as usize) {
        refuse(rt, refusal);
        return;
    }
    let r = replay(rt, &mut t, blocks.min(Block::BLOCKS + 1));
    let n = show(&t, r, &mut page);
    report::output(rt, &page[..n]);
}

fn usage(rt: &impl Eprint) {
    let _ = eprintln!(rt; "usage: replay PLACES [BLOCKS] < recording");
}

fn main(rt: HostRuntime) {
    let n = report::argument_count(&rt);
    let Some(places) = argument(&rt, 1) else {
        usage(&rt);
        return;
    };
    if n == 2 {
        evening(&rt, places, Block::BLOCKS + 1);
        return;
    }
    let Some(blocks) = argument(&rt, 2) else {
        usage(&rt);
        return;
    };
    if n == 3 {
        evening(&rt, places, blocks);
    } else {
        usage(&rt);
    }
}
