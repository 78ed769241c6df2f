// The clients' part of the soundness check: their order, the count rows and the free client rows. It reads each client row once and keeps no marks.
// It rests on the table's size (`Sized`), which the calls offered outside have tested, and on nothing else.
#![tactic(auto)]

ghost use Rattle.std.specs.Prelude.{◌≡◌, ◌≤◌, ◌<◌};
ghost use Rattle.table.specs.Regions.{Sized, regions};
ghost use Rattle.table.specs.Owners.{order_words};
ghost use Rattle.rules.specs.Tells.{Tells};
ghost use Rattle.order_check.specs.Check.{one_if_row, rows_held, Last, Joins, Ranked};
ghost use Rattle.order_check.specs.Clients.{Checked};

use free_check::Rows;
use table::LinkedTable;

// 1 for a row, 0 for none.
fn one_if_row(x: u32) -> u32
    ensures { result ≡ one_if_row x }
{
    u32::from(x != LinkedTable::NONE)
}

// How many words of the count rows hold a row. No early exit: the loop is turned into vector code.
fn rows_held(t: &[u32], q: usize) -> u32
    requires { Sized q t.now }
    ensures { result ≡ rows_held (order_words (regions q t.now)) q }
{
    let mut n = 0;
    for k in 0..q {
        let light = table::count_end(t, q, k, LinkedTable::LIGHT_END);
        let heavy = table::count_end(t, q, k, LinkedTable::HEAVY_END);
        n += one_if_row(light) + one_if_row(heavy);
    }
    n
}

// Whether the group of this count, where it is not 0, ends with `prev`.
fn ended(t: &[u32], q: usize, count: usize, prev: u32) -> bool
    requires sized { Sized q t.now }
    requires count_le_q { count ≤ q }
    ensures { Tells result (Last (order_words (regions q t.now)) count prev) }
{
    if count == 0 {
        return true;
    }
    table::count_end(t, q, count - 1, LinkedTable::HEAVY_END) == prev
}

// Whether row `at`, of this count, may follow `prev`, of count `floor`: 0 before the first row. Where the counts differ a group ends and another begins.
fn joins(t: &[u32], q: usize, at: u32, count: usize, prev: u32, floor: usize) -> bool
    requires sized { Sized q t.now }
    requires at_lt_q { at < q }
    ensures { Tells result (Joins q (order_words (regions q t.now)) at count prev floor) }
{
    let lighter = table::client(t, q, at, LinkedTable::LIGHTER);
    if lighter != prev || count < 1 || count < floor || q < count {
        return false;
    }
    if count == floor {
        return true;
    }
    if table::count_end(t, q, count - 1, LinkedTable::LIGHT_END) != at {
        return false;
    }
    ended(t, q, floor, prev)
}

// Whether the clients' links visit as many rows as the header says, the same both ways, with counts that never fall and with the ends of each group in its count row.
fn ranked(t: &[u32], q: usize) -> bool
    requires { Sized q t.now }
    ensures { Tells result (Ranked q (order_words (regions q t.now))) }
{
    let rows = q as u32;
    let clients = table::header(t, q, LinkedTable::CLIENTS_AT);
    let mut at = table::header(t, q, LinkedTable::LIGHTEST_AT);
    let mut prev = LinkedTable::NONE;
    let mut floor = 0;
    let mut groups = 0;
    for _ in 0..clients {
        if rows <= at {
            return false;
        }
        let count = table::client(t, q, at, LinkedTable::COUNT) as usize;
        let heavier = table::client(t, q, at, LinkedTable::HEAVIER);
        if !joins(t, q, at, count, prev, floor) {
            return false;
        }
        groups += u32::from(count != floor);
        prev = at;
        floor = count;
        at = heavier;
    }
    let heaviest = table::header(t, q, LinkedTable::HEAVIEST_AT);
    if at != LinkedTable::NONE || heaviest != prev || !ended(t, q, floor, prev) {
        return false;
    }
    // Two words for each group, which hold its ends: so the other count rows hold none twice.
    rows_held(t, q) == 2 * groups
}

// Whether the clients' part of the table is sound. Rows that wait have a count and free ones have none, so together they are every row once.
pub fn check_order(t: &[u32], q: usize) -> bool
    requires { Sized q t.now }
    ensures { Checked q t.now result }
{
    let clients = table::header(t, q, LinkedTable::CLIENTS_AT) as usize;
    if q < clients || !ranked(t, q) {
        return false;
    }
    let rows = Rows {
        from: LinkedTable::clients_from(q),
        width: LinkedTable::CLIENT_WORDS,
        link: LinkedTable::HEAVIER,
    };
    let first = table::header(t, q, LinkedTable::FREE_CLIENT_AT);
    free_check::free_rows(t, rows, q, first, q - clients)
}
