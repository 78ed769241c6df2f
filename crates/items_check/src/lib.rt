// The items' part of the soundness check, in one pass without marks: links that agree both ways from a none end repeat no row,
// a chain that ends repeats none, and a free row has both own links 0, as no waiting one has.
#![tactic(auto)]

ghost use Rattle.std.specs.Prelude.{◌<◌, ◌≤◌, length};
ghost use Rattle.table.specs.Kind as kind;
ghost use Rattle.table.specs.Regions.{Sized, regions};
ghost use Rattle.items_check.specs.Items.{Checked};
ghost use Rattle.rules.specs.Tells.{Tells};
ghost use Rattle.items_check.specs.Check.{notes, Joins, OwnEnds, Finished, Window, Expected, Unmet};

use free_check::Rows;
use table::LinkedTable;

// Up to this size a table is checked in little room: clearing the most takes longer than all of its check.
const SMALL: usize = 64;

// What the walk of the window has noted of the own list of each row, of which there are N at most: the last item met, the row after it, and how many were met.
// Three arrays, and not one of structs: with that the check of the items takes half as many instructions again, at 4, 64 and 1,000 places.
#[derive(Drop)]
struct Noted<const N: usize> {
    met: [u32; N],
    next: [u32; N],
    seen: [u32; N],
}

// Row x follows prev in the window and p in its client's own list, which goes on with h after p.
fn joins(t: &[u32], q: usize, x: u32, prev: u32, p: u32, h: u32) -> bool
    requires sized { Sized q t.now }
    requires x_lt_q { x < q }
    ensures { Tells result (Joins (regions q t.now) x prev p h) }
{
    if table::item(t, q, x, LinkedTable::EARLIER) != prev {
        return false;
    }
    if table::item(t, q, x, LinkedTable::OWN_EARLIER) != p {
        return false;
    }
    h == x
}

// The own list of client c ends with p, the n-th, after which it goes on with h; nothing was met of a row without a count.
fn own_ends(t: &[u32], q: usize, c: u32, p: u32, h: u32, n: u32) -> bool
    requires sized { Sized q t.now }
    requires c_lt_q { c < q }
    ensures { Tells result (OwnEnds (regions q t.now) c p h n) }
{
    let count = table::client(t, q, c, LinkedTable::COUNT);
    let newest = table::client(t, q, c, LinkedTable::NEWEST);
    if n != count {
        return false;
    }
    if count == 0 {
        return true;
    }
    if p != newest {
        return false;
    }
    h == LinkedTable::NONE
}

// With no row left at `at`, the window ends with prev and every client's own list with what was noted of it.
// No early exit from the loop, with which the check of the items takes a fifth more instructions at 64 and 1,000 places: which rows are clients' cannot be foretold.
fn finished<const N: usize>(t: &[u32], q: usize, at: u32, prev: u32, noted: &Noted<N>) -> bool
    requires sized { Sized q t.now }
    requires room { q ≤ N }
    ensures { Tells result (Finished q (regions q t.now) at prev (notes noted.now.met noted.now.next noted.now.seen)) }
{
    if at != LinkedTable::NONE {
        return false;
    }
    if prev != table::header(t, q, LinkedTable::BACK_AT) {
        return false;
    }
    let mut wrong = 0;
    for r in 0..q {
        let ends = own_ends(t, q, r as u32, noted.met[r], noted.next[r], noted.seen[r]);
        wrong += u32::from(!ends);
    }
    wrong == 0
}

// Before anything is met every own list goes on with its oldest item.
fn expect_oldest(t: &[u32], q: usize, next: &mut [u32])
    requires sized { Sized q t.now }
    requires q_in_bounds { q ≤ length next.old }
    ensures { Expected q (regions q t.now) next.new }
{
    for r in 0..q {
        next[r] = table::client(t, q, r as u32, LinkedTable::OLDEST);
    }
}

// The window, and beside it each client's own list, of which is noted what was met.
fn follow<const N: usize>(t: &[u32], q: usize, noted: &mut Noted<N>) -> bool
    requires sized { Sized q t.now }
    requires unmet { Unmet q (regions q t.now) noted.old.met noted.old.next noted.old.seen }
    ensures { Tells result (Window q (regions q t.now)) }
{
    // Rows are compared in the 32 bits that they have in the table.
    let rows = q as u32;
    let requests = table::header(t, q, LinkedTable::REQUESTS_AT);
    let mut at = table::header(t, q, LinkedTable::FRONT_AT);
    let mut prev = LinkedTable::NONE;
    for _ in 0..requests {
        if at >= rows {
            return false;
        }
        let c = table::item(t, q, at, LinkedTable::OWNER);
        if c >= rows {
            return false;
        }
        let i = c as usize;
        if !joins(t, q, at, prev, noted.met[i], noted.next[i]) {
            return false;
        }
        noted.met[i] = at;
        noted.next[i] = table::item(t, q, at, LinkedTable::OWN_LATER);
        noted.seen[i] += 1;
        prev = at;
        at = table::item(t, q, at, LinkedTable::LATER);
    }
    finished(t, q, at, prev, noted)
}

// The same, noted in room for N rows.
fn followed<const N: usize>(t: &[u32], q: usize) -> bool
    requires sized { Sized q t.now }
    requires room { (q ≤ N) × (N ≤ kind.largest) }
    ensures { Tells result (Window q (regions q t.now)) }
{
    let mut noted = Noted {
        met: [LinkedTable::NONE; N],
        next: [0; N],
        seen: [0; N],
    };
    expect_oldest(t, q, &mut noted.next);
    follow(t, q, &mut noted)
}

// The same, in as little room as is enough.
fn window(t: &[u32], q: usize) -> bool
    requires { Sized q t.now }
    ensures { Tells result (Window q (regions q t.now)) }
{
    if q <= SMALL {
        followed::<SMALL>(t, q)
    } else {
        followed::<{ LinkedTable::LARGEST }>(t, q)
    }
}

// Whether the items are right, where the clients are.
pub fn check_items(t: &[u32], q: usize) -> bool
    requires { Sized q t.now }
    ensures { Checked q t.now result }
{
    let n = table::header(t, q, LinkedTable::REQUESTS_AT) as usize;
    if q < n || !window(t, q) {
        return false;
    }
    let rows = Rows {
        from: LinkedTable::HEADER_WORDS,
        width: LinkedTable::ITEM_WORDS,
        link: LinkedTable::LATER,
    };
    let first = table::header(t, q, LinkedTable::FREE_ITEM_AT);
    free_check::free_rows(t, rows, q, first, q - n)
}
