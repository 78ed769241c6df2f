// Arrive, slide and serve on a ready table: the clients' order and the window, one after the other. A request joins; or one of several leaves, or a client's only one.
#![tactic(auto)]

ghost use Rattle.std.specs.Prelude.{true, ◌≡◌, ◌≤◌, length};
ghost use Rattle.table.specs.Regions.{regions};
ghost use Rattle.table.specs.Owners.{order_words};
ghost use Rattle.rules.specs.Rows.{In};
ghost use Rattle.rules.specs.History as history;
ghost use Rattle.rules.specs.Picture.{client_rows, item_rows, count_of, request_of, limits_of, plain};
ghost use Rattle.rules.specs.Steps as steps;
ghost use Rattle.rules.specs.Draw.{draw};
ghost use Rattle.rules.specs.Sound.{picture};
ghost use Rattle.rules.specs.Ready.{Ready};
ghost use Rattle.lookup.specs.Promise.{Found, Home};
ghost use Rattle.answers.specs.Engine.{as_struct, as_choice, as_left};
ghost use Rattle.steps.specs.Items.{item_in};

use answers::{Choice, Request};
use lookup::Sought;
use spread::Spread;
use table::{LinkedTable, Ticket};

// The arrival rule where the window is full: whether a client with n waiting requests is turned away, m being the largest count. One more is counted in 64 bits, where it cannot wrap.
fn turned_away(n: u32, m: u32) -> bool
    ensures { result ≡ history.turned_away true n m }
{
    n as u64 + 1 >= m as u64
}

// Whether every place is taken.
fn full(t: &[u32], q: usize) -> bool
    requires { Ready q t.now }
    ensures { result ≡ history.full (limits_of (picture t.now)) (plain (picture t.now)) }
{
    let requests = table::header(t, q, LinkedTable::REQUESTS_AT);
    q <= requests as usize
}

// A request joins: `at` is where its client's id was sought, and n how many of that client's wait already.
fn join(t: &mut [u32], q: usize, at: Sought, n: u32, id: u32, ticket: Ticket)
    requires ready { Ready q t.old }
    requires found { Found (order_words (regions q t.old)).id (client_rows (picture t.old)) id at.row × Home q id at }
    requires n_value { n ≡ history.count_of (plain (picture t.old)) id }
    requires in_bounds { 1 ≤ length (picture t.old).free_items }
    ensures { t.new ≡ draw (steps.join (picture t.old) id ticket) }
{
    let c = at.row;
    if c == LinkedTable::NONE {
        let new = order::admit(t, q, at, id);
        window::join(t, q, new, ticket, LinkedTable::NONE);
    } else {
        let newest = window::newest(t, q, c);
        order::raise(t, q, c, n);
        window::join(t, q, c, ticket, newest);
    }
}

// The request in item row r, which is one of the client's in row c.
fn request_in(t: &[u32], q: usize, c: u32, r: u32) -> Request
    requires ready { Ready q t.now }
    requires waits { In r (item_rows (picture t.now)) × ((item_in r (picture t.now).window).client ≡ c) }
    ensures { result ≡ as_struct (request_of (picture t.now).clients (item_in r (picture t.now).window)) }
{
    let id = table::client(t, q, c, LinkedTable::ID);
    let ticket = table::ticket(t, q, r);
    Request { id, ticket }
}

// The request in item row r leaves, one of several, n, of the client in row c, which stays; it is the reply.
fn leave_one(t: &mut [u32], q: usize, c: u32, n: u32, r: u32) -> Request
    requires ready { Ready q t.old }
    requires waits { In r (item_rows (picture t.old)) × ((item_in r (picture t.old).window).client ≡ c) }
    requires n_value { (n ≡ count_of (picture t.old).window c) × (2 ≤ n) }
    ensures value { result ≡ as_struct (request_of (picture t.old).clients (item_in r (picture t.old).window)) }
    ensures t_after { t.new ≡ draw (steps.leave (picture t.old) (item_in r (picture t.old).window)) }
{
    let gone = request_in(t, q, c, r);
    order::lower(t, q, c, n);
    window::leave_one(t, q, c, r);
    gone
}

// The request in item row r leaves, the only one of the client in row c, which goes; it is the reply.
fn leave_only(t: &mut [u32], q: usize, s: &Spread, c: u32, r: u32) -> Request
    requires ready { Ready q t.old }
    requires waits { In r (item_rows (picture t.old)) × ((item_in r (picture t.old).window).client ≡ c) }
    requires c_value { count_of (picture t.old).window c ≡ 1 }
    ensures value { result ≡ as_struct (request_of (picture t.old).clients (item_in r (picture t.old).window)) }
    ensures t_after { t.new ≡ draw (steps.leave (picture t.old) (item_in r (picture t.old).window)) }
{
    let gone = request_in(t, q, c, r);
    order::dismiss(t, q, s, c);
    window::leave_only(t, q, c, r);
    gone
}

// Arrive: the request joins; where the window is full, the newest of the heaviest client leaves first, or the arriving client is turned away.
// Who is not turned away has two requests fewer than the heaviest client at least: that client has several, and stays.
pub fn arrive(t: &mut [u32], q: usize, s: &Spread, id: u32, ticket: Ticket) -> Choice
    requires ready { Ready q t.old }
    ensures reply { result ≡ as_choice (history.choice (limits_of (picture t.old)) (plain (picture t.old)) id) }
    ensures words { t.new ≡ draw (steps.arrived (picture t.old) id ticket) }
{
    let at = lookup::find(t, q, s, id);
    let n = questions::count_in(t, q, at.row);
    let choice = if full(t, q) {
        let c = table::header(t, q, LinkedTable::HEAVIEST_AT);
        let m = table::client(t, q, c, LinkedTable::COUNT);
        if turned_away(n, m) {
            return Choice::Turned;
        }
        let r = window::newest(t, q, c);
        Choice::Evicted(leave_one(t, q, c, m, r))
    } else {
        Choice::Joined
    };
    // the client that lost a request is another one, so what was found of this one is still right
    join(t, q, at, n, id, ticket);
    choice
}

// Serve: the front request leaves and is the reply.
pub fn serve(t: &mut [u32], q: usize, s: &Spread) -> Option<Request>
    requires ready { Ready q t.old }
    ensures reply { result ≡ as_left (history.served (plain (picture t.old))) }
    ensures words { t.new ≡ draw (steps.served (picture t.old)) }
{
    if table::header(t, q, LinkedTable::REQUESTS_AT) == 0 {
        return None;
    }
    let r = table::header(t, q, LinkedTable::FRONT_AT);
    let c = table::item(t, q, r, LinkedTable::OWNER);
    let n = table::client(t, q, c, LinkedTable::COUNT);
    if n == 1 {
        return Some(leave_only(t, q, s, c, r));
    }
    Some(leave_one(t, q, c, n, r))
}

// Slide: where the window is full, the front request leaves first, as if it was served; then the new one arrives, and joins, for there is room.
pub fn slide(t: &mut [u32], q: usize, s: &Spread, id: u32, ticket: Ticket) -> Option<Request>
    requires ready { Ready q t.old }
    ensures reply { result ≡ as_left (history.slide_left (limits_of (picture t.old)) (plain (picture t.old))) }
    ensures words { t.new ≡ draw (steps.slid (picture t.old) id ticket) }
{
    let left = if full(t, q) { serve(t, q, s) } else { None };
    arrive(t, q, s, id, ticket);
    left
}
