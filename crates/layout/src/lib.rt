// Lay-out and carve: the two calls that make a table out of words that the host lends. Neither asks anything of them.
#![tactic(auto)]

ghost use Rattle.std.specs.Prelude.{◌≡◌, ◌≤◌, ◌<◌, length};
ghost use Rattle.table.specs.Kind as kind;
ghost use Rattle.table.specs.Regions.{Sized, Writes, words};
ghost use Rattle.rules.specs.Steps.{empty};
ghost use Rattle.rules.specs.Draw.{draw};
ghost use Rattle.rules.specs.Verdict.{lay_out_number, laid_out, carved, placed};
ghost use Rattle.answers.specs.Numbers.{done_number};
ghost use Rattle.layout.specs.Laid.{blank, next_free, chained, headed};
ghost use Rattle.layout.specs.Carve.{part_of};

use answers::Refusal;
use std::ops::Range;
use table::LinkedTable;

// Header and rows 0, count rows and buckets none.
fn clear(t: &mut [u32], q: usize)
    requires { Sized q t.old }
    ensures { t.new ≡ words q blank }
{
    let from = LinkedTable::counts_from(q);
    t[..from].fill(0);
    t[from..].fill(LinkedTable::NONE);
}

// The row that a free row chains to.
fn next_free(q: usize, r: u32) -> u32
    requires { (q ≤ kind.largest) × (r < q) }
    ensures { result ≡ next_free q r }
{
    if (r as usize) + 1 < q {
        r + 1
    } else {
        LinkedTable::NONE
    }
}

// Both free chains, over rows that are 0.
fn chain(t: &mut [u32], q: usize)
    requires sized { Sized q t.old }
    requires t_value { t.old ≡ words q blank }
    ensures { t.new ≡ words q (chained q q) }
{
    for r in 0..q as u32 {
        let next = next_free(q, r);
        table::set_item(t, q, r, LinkedTable::LATER, next);
        table::set_client(t, q, r, LinkedTable::HEAVIER, next);
    }
}

// The header's words that are not 0.
fn head(t: &mut [u32], q: usize)
    requires { Sized q t.old }
    ensures { Writes q t.old t.new (headed q) }
{
    table::set_header(t, q, LinkedTable::MARK_AT, LinkedTable::MARK);
    table::set_header(t, q, LinkedTable::PLACES_AT, q as u32);
    table::set_header(t, q, LinkedTable::FRONT_AT, LinkedTable::NONE);
    table::set_header(t, q, LinkedTable::BACK_AT, LinkedTable::NONE);
    table::set_header(t, q, LinkedTable::LIGHTEST_AT, LinkedTable::NONE);
    table::set_header(t, q, LinkedTable::HEAVIEST_AT, LinkedTable::NONE);
}

// Every word of a table of q places, after a lay-out.
fn lay(t: &mut [u32], q: usize)
    requires sized { Sized q t.old }
    requires le_q { 1 ≤ q }
    ensures { t.new ≡ draw (empty q) }
{
    clear(t, q);
    chain(t, q);
    head(t, q);
}

// Lays a table of q places out in the first words of t, unless Q is out of range or t too short.
pub fn lay_out(t: &mut [u32], q: usize) -> Result<(), Refusal>
    ensures number { done_number result ≡ lay_out_number q (length t.old) }
    ensures words { t.new ≡ laid_out q t.old }
{
    if !LinkedTable::in_range(q) {
        return Err(Refusal::OutOfRange);
    }
    let need = LinkedTable::size(q);
    if t.len() < need {
        return Err(Refusal::TooShort);
    }
    lay(&mut t[..need], q);
    Ok(())
}

// The part that a table of q places takes of a pool of len words, from the start on, which may be any number.
fn part_of(len: usize, start: usize, q: usize) -> Option<Range<usize>>
    ensures { result ≡ part_of len start q }
{
    if !LinkedTable::in_range(q) {
        return None;
    }
    let end = start.checked_add(LinkedTable::size(q))?;
    (end <= len).then_some(start..end)
}

// The part of the pool that a table of q places takes from the start on, or an empty part where there is none.
pub fn carve(pool: &mut [u32], start: usize, q: usize) -> &mut [u32]
    ensures words { result.now ≡ carved pool.old start q }
    ensures place { result.ref_ptr ≡ placed pool.entry.ref_ptr pool.old start q }
{
    let part = part_of(pool.len(), start, q).unwrap_or(0..0);
    &mut pool[part]
}
