// Doubly linked rows and free rows inside a table. One code, by the places of a list's words, serves the window, the clients' order and each client's own items.
// The functions rest on the table's size (`Sized`) and on links that can be followed (`Link`), as those of a sound table can.
#![tactic(auto)]

ghost use Rattle.std.specs.Prelude.{◌≡◌, ◌+◌, ◌<◌, ◌≤◌, length, get_or, set};
ghost use Rattle.table.specs.Kind as kind;
ghost use Rattle.table.specs.Regions.{Sized, Writes, item_word, client_word};
ghost use Rattle.rules.specs.Linked.{Link};
ghost use Rattle.links.specs.Strands.{the_window, the_order, the_own, unlink_in, insert_in, push_in};
ghost use Rattle.links.specs.Pools.{free_items, free_clients, take_from, free_into};
ghost use Rattle.links.specs.Places.{places, word_at, link_at, back_word, on_word, Ends, Row, Reach, turned, unlinked, inserted, pushed, other_way};

use table::LinkedTable;

// A doubly linked list by its places: where row 0 stands, and how many words a row has; which of them link back and on; where the ends stand.
#[derive(Clone, Copy)]
struct Places {
    rows: usize,
    width: usize,
    back: usize,
    on: usize,
    first: usize,
    last: usize,
}

impl Places {
    // The link f of row r.
    fn link_of(self, t: &[u32], f: usize, r: u32) -> u32
        requires { word_at self r f < length t.now }
        ensures { result ≡ get_or t.now (word_at self r f) 0 }
    {
        t[self.rows + self.width * (r as usize) + f]
    }

    // The link f of row r becomes v.
    fn set_link(self, t: &mut [u32], f: usize, r: u32, v: u32)
        requires { word_at self r f < length t.old }
        ensures { t.new ≡ set t.old (word_at self r f) v }
    {
        t[self.rows + self.width * (r as usize) + f] = v;
    }

    // The link f of row e becomes v; where e is none, the end does.
    fn put_link(self, t: &mut [u32], f: usize, end: usize, e: u32, v: u32)
        requires end_in_bounds { end < length t.old }
        requires f_in_bounds { (e ≡ kind.none → ⊥) → word_at self e f < length t.old }
        ensures { t.new ≡ set t.old (link_at self f end e) v }
    {
        if e == LinkedTable::NONE {
            t[end] = v;
        } else {
            self.set_link(t, f, e, v);
        }
    }

    // The link on from e becomes v, and the link back from l becomes w.
    fn turn(self, t: &mut [u32], e: u32, v: u32, l: u32, w: u32)
        requires ends { Ends (length t.old) self }
        requires reach { Reach (length t.old) self e }
        requires later_reach { Reach (length t.old) self l }
        ensures { t.new ≡ turned self e v l w t.old }
    {
        self.put_link(t, self.on, self.first, e, v);
        self.put_link(t, self.back, self.last, l, w);
    }

    // Row r goes out of the list: its neighbours are linked to each other.
    fn unlink(self, t: &mut [u32], r: u32)
        requires ends { Ends (length t.old) self }
        requires row { Row (length t.old) self r }
        requires reach { Reach (length t.old) self (back_word self t.old r) }
        requires later_reach { Reach (length t.old) self (on_word self t.old r) }
        ensures { t.new ≡ unlinked self r t.old }
    {
        let e = self.link_of(t, self.back, r);
        let l = self.link_of(t, self.on, r);
        self.turn(t, e, l, l, e);
    }

    // Row r comes into the list between e and l, either of which may be none.
    fn insert(self, t: &mut [u32], r: u32, e: u32, l: u32)
        requires ends { Ends (length t.old) self }
        requires row { Row (length t.old) self r }
        requires reach { Reach (length t.old) self e }
        requires later_reach { Reach (length t.old) self l }
        ensures { t.new ≡ inserted self r e l t.old }
    {
        self.set_link(t, self.back, r, e);
        self.set_link(t, self.on, r, l);
        self.turn(t, e, r, l, r);
    }

    // Row r comes into the list after e, which is a row: its link on is written with no test for none.
    fn insert_after(self, t: &mut [u32], r: u32, e: u32)
        requires ends { Ends (length t.old) self }
        requires row { Row (length t.old) self r }
        requires row_of_e { Row (length t.old) self e × (e < kind.none) }
        requires reach { Reach (length t.old) self (on_word self t.old e) }
        ensures { t.new ≡ inserted self r e (on_word self t.old e) t.old }
    {
        let l = self.link_of(t, self.on, e);
        self.set_link(t, self.back, r, e);
        self.set_link(t, self.on, r, l);
        self.set_link(t, self.on, e, r);
        self.put_link(t, self.back, self.last, l, r);
    }

    // The same list read from its other end: what comes after a row there comes before it here.
    fn reversed(self) -> Self
        ensures { result ≡ other_way self }
    {
        Self {
            rows: self.rows,
            width: self.width,
            back: self.on,
            on: self.back,
            first: self.last,
            last: self.first,
        }
    }

    // Row r comes into the list after the last.
    fn push(self, t: &mut [u32], r: u32)
        requires ends { Ends (length t.old) self }
        requires row { Row (length t.old) self r }
        requires reach { Reach (length t.old) self (get_or t.old self.last 0) }
        ensures { t.new ≡ pushed self r t.old }
    {
        let last = self.last;
        let e = t[last];
        self.insert(t, r, e, LinkedTable::NONE);
    }
}

// Where the window stands: in every table alike.
fn window() -> Places
    ensures { result ≡ places 0 the_window }
{
    Places {
        rows: LinkedTable::item_at(0),
        width: LinkedTable::ITEM_WORDS,
        back: LinkedTable::EARLIER,
        on: LinkedTable::LATER,
        first: LinkedTable::FRONT_AT,
        last: LinkedTable::BACK_AT,
    }
}

// Where the order stands.
fn order(q: usize) -> Places
    requires { q ≤ kind.largest }
    ensures { result ≡ places q the_order }
{
    Places {
        rows: LinkedTable::clients_from(q),
        width: LinkedTable::CLIENT_WORDS,
        back: LinkedTable::LIGHTER,
        on: LinkedTable::HEAVIER,
        first: LinkedTable::LIGHTEST_AT,
        last: LinkedTable::HEAVIEST_AT,
    }
}

// Where the own items of client c stand.
fn own(q: usize, c: u32) -> Places
    requires { (q ≤ kind.largest) × (c < q) }
    ensures { result ≡ places q (the_own c) }
{
    let client = LinkedTable::client_at(q, c);
    Places {
        rows: LinkedTable::item_at(0),
        width: LinkedTable::ITEM_WORDS,
        back: LinkedTable::OWN_EARLIER,
        on: LinkedTable::OWN_LATER,
        first: client + LinkedTable::OLDEST,
        last: client + LinkedTable::NEWEST,
    }
}

// An item goes out of the window.
pub fn unlink_item(t: &mut [u32], q: usize, r: u32)
    requires sized { Sized q t.old }
    requires r_lt_q { r < q }
    requires link { Link q (item_word t.old r kind.earlier) }
    requires later_link { Link q (item_word t.old r kind.later) }
    ensures writes { Writes q t.old t.new (unlink_in the_window r) }
    ensures still_sized { Sized q t.new }
{
    window().unlink(t, r);
}

// An item joins at the back of the window.
pub fn push_item(t: &mut [u32], q: usize, r: u32)
    requires sized { Sized q t.old }
    requires r_lt_q { r < q }
    requires link { Link q (get_or t.old kind.back_at 0) }
    ensures writes { Writes q t.old t.new (push_in the_window r) }
    ensures still_sized { Sized q t.new }
{
    window().push(t, r);
}

// A client goes out of the order.
pub fn unlink_client(t: &mut [u32], q: usize, r: u32)
    requires sized { Sized q t.old }
    requires r_lt_q { r < q }
    requires link { Link q (client_word t.old q r kind.lighter) }
    requires later_link { Link q (client_word t.old q r kind.heavier) }
    ensures writes { Writes q t.old t.new (unlink_in the_order r) }
    ensures still_sized { Sized q t.new }
{
    order(q).unlink(t, r);
}

// A client comes into the order between e and l, either of which may be none.
pub fn insert_client(t: &mut [u32], q: usize, r: u32, e: u32, l: u32)
    requires sized { Sized q t.old }
    requires r_lt_q { r < q }
    requires link { Link q e }
    requires later_link { Link q l }
    ensures writes { Writes q t.old t.new (insert_in the_order r e l) }
    ensures still_sized { Sized q t.new }
{
    order(q).insert(t, r, e, l);
}

// A client comes into the order after the client in row e.
pub fn insert_client_after(t: &mut [u32], q: usize, r: u32, e: u32)
    requires sized { Sized q t.old }
    requires r_lt_q { r < q }
    requires e_lt_q { e < q }
    requires link { Link q (client_word t.old q e kind.heavier) }
    ensures writes { Writes q t.old t.new (λ R. insert_in the_order r e (R.client e kind.heavier) R) }
    ensures still_sized { Sized q t.new }
{
    order(q).insert_after(t, r, e);
}

// A client comes into the order before the client in row l.
pub fn insert_client_before(t: &mut [u32], q: usize, r: u32, l: u32)
    requires sized { Sized q t.old }
    requires r_lt_q { r < q }
    requires l_lt_q { l < q }
    requires link { Link q (client_word t.old q l kind.lighter) }
    ensures writes { Writes q t.old t.new (λ R. insert_in the_order r (R.client l kind.lighter) l R) }
    ensures still_sized { Sized q t.new }
{
    order(q).reversed().insert_after(t, r, l);
}

// An item goes out of the own items of client c.
pub fn unlink_own(t: &mut [u32], q: usize, c: u32, r: u32)
    requires sized { Sized q t.old }
    requires c_lt_q { c < q }
    requires r_lt_q { r < q }
    requires link { Link q (item_word t.old r kind.own_earlier) }
    requires later_link { Link q (item_word t.old r kind.own_later) }
    ensures writes { Writes q t.old t.new (unlink_in (the_own c) r) }
    ensures still_sized { Sized q t.new }
{
    own(q, c).unlink(t, r);
}

// An item comes into the own items of client c between e and l: with both none, it is the only one.
pub fn insert_own(t: &mut [u32], q: usize, c: u32, r: u32, e: u32, l: u32)
    requires sized { Sized q t.old }
    requires c_lt_q { c < q }
    requires r_lt_q { r < q }
    requires link { Link q e }
    requires later_link { Link q l }
    ensures writes { Writes q t.old t.new (insert_in (the_own c) r e l) }
    ensures still_sized { Sized q t.new }
{
    own(q, c).insert(t, r, e, l);
}

// The first free item row, taken off its chain.
pub fn take_item(t: &mut [u32], q: usize) -> u32
    requires sized { Sized q t.old }
    requires free_item_at_bound { get_or t.old kind.free_item_at 0 < q }
    ensures value { result ≡ get_or t.old kind.free_item_at 0 }
    ensures writes { Writes q t.old t.new (take_from free_items) }
    ensures still_sized { Sized q t.new }
{
    let r = table::header(t, q, LinkedTable::FREE_ITEM_AT);
    let next = table::item(t, q, r, LinkedTable::LATER);
    table::set_header(t, q, LinkedTable::FREE_ITEM_AT, next);
    r
}

// An item row becomes blank, and the first free one.
pub fn free_item(t: &mut [u32], q: usize, r: u32)
    requires sized { Sized q t.old }
    requires r_lt_q { r < q }
    ensures writes { Writes q t.old t.new (free_into free_items r) }
    ensures still_sized { Sized q t.new }
{
    let first = table::header(t, q, LinkedTable::FREE_ITEM_AT);
    let row = LinkedTable::item_at(r);
    t[row..row + LinkedTable::ITEM_WORDS].fill(0);
    t[row + LinkedTable::LATER] = first;
    table::set_header(t, q, LinkedTable::FREE_ITEM_AT, r);
}

// The first free client row, taken off its chain.
pub fn take_client(t: &mut [u32], q: usize) -> u32
    requires sized { Sized q t.old }
    requires free_client_at_bound { get_or t.old kind.free_client_at 0 < q }
    ensures value { result ≡ get_or t.old kind.free_client_at 0 }
    ensures writes { Writes q t.old t.new (take_from free_clients) }
    ensures still_sized { Sized q t.new }
{
    let r = table::header(t, q, LinkedTable::FREE_CLIENT_AT);
    let next = table::client(t, q, r, LinkedTable::HEAVIER);
    table::set_header(t, q, LinkedTable::FREE_CLIENT_AT, next);
    r
}
