// The waiting items: the window, each client's own items, the free item rows.
// The functions rest on a table that shows them (`Shown`), as every sound table does, and on a caller who knows how many items the client has: nobody reads the own links to find out.
#![tactic(auto)]

ghost use Rattle.std.specs.Prelude.{◌≡◌, ◌<◌, ◌≤◌, get_or};
ghost use Rattle.table.specs.Kind as kind;
ghost use Rattle.table.specs.Regions.{Sized, Writes, item_word, client_word};
ghost use Rattle.rules.specs.Linked.{Link};
ghost use Rattle.window.specs.Steps.{enter_item, joined, leave_window, left};
ghost use Rattle.window.specs.Shown.{Room, ItemOf};

use table::{LinkedTable, Ticket};

// An item row goes to the back of the window and of its client's own items, the newest of which was e, or none.
fn enter_item(t: &mut [u32], q: usize, r: u32, c: u32, ticket: Ticket, e: u32)
    requires sized { Sized q t.old }
    requires r_lt_q { (r < q) × (c < q) }
    requires link { Link q e }
    requires back_link { Link q (get_or t.old kind.back_at 0) }
    ensures writes { Writes q t.old t.new (enter_item r c ticket e) }
    ensures still_sized { Sized q t.new }
{
    links::push_item(t, q, r);
    links::insert_own(t, q, c, r, e, LinkedTable::NONE);
    table::set_item(t, q, r, LinkedTable::OWNER, c);
    table::set_ticket(t, q, r, ticket);
}

// Item row r goes out of the window, and is the first free one; one request fewer. Its client's own items are the caller's.
fn leave_window(t: &mut [u32], q: usize, r: u32)
    requires sized { Sized q t.old }
    requires r_lt_q { r < q }
    requires link { Link q (item_word t.old r kind.earlier) × Link q (item_word t.old r kind.later) }
    requires bound { 1 ≤ get_or t.old kind.requests_at 0 }
    ensures writes { Writes q t.old t.new (leave_window r) }
    ensures still_sized { Sized q t.new }
{
    let n = table::header(t, q, LinkedTable::REQUESTS_AT);
    links::unlink_item(t, q, r);
    links::free_item(t, q, r);
    table::set_header(t, q, LinkedTable::REQUESTS_AT, n - 1);
}

// A request of the client in row c joins at the back, in the first free item row. The caller, who has looked the client up, says its newest item, or none.
pub fn join(t: &mut [u32], q: usize, c: u32, ticket: Ticket, e: u32)
    requires sized { Sized q t.old }
    requires c_lt_q { c < q }
    requires room { Room q t.old c e }
    ensures writes { Writes q t.old t.new (joined c ticket e) }
    ensures still_sized { Sized q t.new }
{
    let n = table::header(t, q, LinkedTable::REQUESTS_AT);
    let r = links::take_item(t, q);
    enter_item(t, q, r, c, ticket, e);
    table::set_header(t, q, LinkedTable::REQUESTS_AT, n + 1);
}

// The only request of client c, in item row r, leaves: the client's two words become 0.
pub fn leave_only(t: &mut [u32], q: usize, c: u32, r: u32)
    requires sized { Sized q t.old }
    requires item_of { ItemOf q t.old c r (λ n. n ≡ 1) }
    ensures writes { Writes q t.old t.new (left r) }
    ensures still_sized { Sized q t.new }
{
    table::set_client(t, q, c, LinkedTable::OLDEST, 0);
    table::set_client(t, q, c, LinkedTable::NEWEST, 0);
    leave_window(t, q, r);
}

// One of several requests of client c, in item row r, leaves.
pub fn leave_one(t: &mut [u32], q: usize, c: u32, r: u32)
    requires sized { Sized q t.old }
    requires item_of { ItemOf q t.old c r (λ n. 2 ≤ n) }
    ensures writes { Writes q t.old t.new (left r) }
    ensures still_sized { Sized q t.new }
{
    links::unlink_own(t, q, c, r);
    leave_window(t, q, r);
}

// The newest item row of the client in row c, which has one.
pub fn newest(t: &[u32], q: usize, c: u32) -> u32
    requires sized { Sized q t.now }
    requires c_lt_q { c < q }
    ensures { result ≡ client_word t.now q c kind.newest }
{
    table::client(t, q, c, LinkedTable::NEWEST)
}
