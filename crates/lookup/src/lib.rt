// The lookup of clients by id: for each bucket a chain of client rows.
// Its functions rest on the table's size and on the spread table, which is lent down; find and leave also on a table that keeps its clients.
#![tactic(auto)]

ghost use Rattle.std.specs.Prelude.{◌≡◌, true, ◌<◌, ◌≤◌, length, take};
ghost use Rattle.table.specs.Kind as kind;
ghost use Rattle.table.specs.Regions.{Sized, Writes, client_word, bucket_word};
ghost use Rattle.rules.specs.Rows.{In, NotIn};
ghost use Rattle.rules.specs.Linked.{Link};
ghost use Rattle.rules.specs.Draw.{before};
ghost use Rattle.rules.specs.Tells.{Tells};
ghost use Rattle.lookup.specs.Promise.{Kept, Found, Home, Seeks, Enters, Leaves, Checked};
ghost use Rattle.lookup.specs.Inside.Filed.{hook, leave_at};
ghost use Rattle.lookup.specs.Inside.Reading.{id_of, next_of, from, Ends, Reaches, OwnIds, Fits, Left, filled, Comes, Stands, Reached};

use spread::Spread;
use table::LinkedTable;

// Where an id was sought: its client's row or none, as a link word has it, for the layers above know rows by their links; and its bucket, which only the lookup reads.
// So it is not compared or printed: that would read the bucket.
#[derive(Clone, Copy)]
pub struct Sought {
    pub row: u32,
    bucket: usize,
}

// The key to what the promise keeps shut (specs/Promise). Only this crate's proofs can name it, and no code makes one.
#[derive(Clone, Copy)]
enum Key {
    Own,
}

// The row with that id on a chain that ends, or none.
// No iterator over a chain: this walk and that of `long_own_ids` would be plainer with one, but the others
// stop at a row, go on from the row after, or test a row before its link is read.
fn seek(t: &[u32], q: usize, first: u32, id: u32) -> u32
    requires sized { Sized q t.now }
    requires ends { Ends q (next_of q t.now) first }
    ensures { Found (id_of q t.now) (from q t.now first) id result }
{
    let mut at = first;
    while at != LinkedTable::NONE {
        if table::client(t, q, at, LinkedTable::ID) == id {
            return at;
        }
        at = table::client(t, q, at, LinkedTable::NEXT_IN_BUCKET);
    }
    LinkedTable::NONE
}

// The client of that id, or none.
pub fn find(t: &[u32], q: usize, s: &Spread, id: u32) -> Sought
    requires sized { Sized q t.now }
    requires q_nonzero { 0 < q }
    requires kept { Kept q t.now }
    ensures { Seeks q t.now id result }
{
    let bucket = s.bucket_in(id, q);
    let first = table::bucket(t, q, bucket);
    let row = seek(t, q, first, id);
    Sought { row, bucket }
}

// The row, a new client's, goes to the front of the bucket where its id was sought.
pub fn enter(t: &mut [u32], q: usize, at: Sought, r: u32)
    requires sized { Sized q t.old }
    requires r_lt_q { r < q }
    requires home { Home q (client_word t.old q r kind.id) at }
    ensures enters { Enters q t.old t.new r }
    ensures still_sized { Sized q t.new }
{
    let b = at.bucket;
    let first = table::bucket(t, q, b);
    table::set_client(t, q, r, LinkedTable::NEXT_IN_BUCKET, first);
    table::set_bucket(t, q, b, r);
}

// The row before r on a chain that ends and holds r, or none.
fn behind(t: &[u32], q: usize, first: u32, r: u32) -> u32
    requires sized { Sized q t.now }
    requires reaches { Reaches q (next_of q t.now) first r }
    ensures value { result ≡ before 0 kind.none (from q t.now first) r }
    ensures link { Link q result }
{
    let mut at = first;
    let mut last = LinkedTable::NONE;
    while at != r {
        last = at;
        at = table::client(t, q, at, LinkedTable::NEXT_IN_BUCKET);
    }
    last
}

// The pointer out of row e, or the first of bucket b where e is none.
fn set_hook(t: &mut [u32], q: usize, b: usize, e: u32, v: u32)
    requires sized { Sized q t.old }
    requires b_lt_q { b < q }
    requires link { Link q e }
    ensures writes { Writes q t.old t.new (hook b e v) }
    ensures still_sized { Sized q t.new }
{
    if e == LinkedTable::NONE {
        table::set_bucket(t, q, b, v);
    } else {
        table::set_client(t, q, e, LinkedTable::NEXT_IN_BUCKET, v);
    }
}

// Row r, which stands after e in bucket b, leaves.
fn unhook(t: &mut [u32], q: usize, b: usize, e: u32, r: u32)
    requires sized { Sized q t.old }
    requires b_lt_q { (b < q) × (r < q) }
    requires link { Link q e }
    ensures writes { Writes q t.old t.new (leave_at b e r) }
    ensures still_sized { Sized q t.new }
{
    let n = table::client(t, q, r, LinkedTable::NEXT_IN_BUCKET);
    set_hook(t, q, b, e, n);
    table::set_client(t, q, r, LinkedTable::NEXT_IN_BUCKET, 0);
}

// The row, a client's, leaves its bucket; the order of the rest is kept.
pub fn leave(t: &mut [u32], q: usize, s: &Spread, r: u32)
    requires sized { Sized q t.old }
    requires r_lt_q { r < q }
    requires a_client { (K : Kept q t.old) × In r K.clients }
    ensures leaves { Leaves q t.old t.new r }
    ensures still_sized { Sized q t.new }
{
    let id = table::client(t, q, r, LinkedTable::ID);
    let b = s.bucket_in(id, q);
    let first = table::bucket(t, q, b);
    let e = behind(t, q, first, r);
    unhook(t, q, b, e, r);
}

// Whether the row may stand in bucket b.
fn fits(t: &[u32], q: usize, s: &Spread, b: usize, r: u32) -> bool
    requires sized { Sized q t.now }
    ensures { Tells result (Fits q t.now b r) }
{
    if r as usize >= q {
        return false;
    }
    if table::client(t, q, r, LinkedTable::COUNT) == 0 {
        return false;
    }
    let id = table::client(t, q, r, LinkedTable::ID);
    s.bucket_in(id, q) == b
}

// The room that is left after the chain of bucket b from `first` on, where the chain is right and there is room for it.
fn room_after(t: &[u32], q: usize, s: &Spread, b: usize, first: u32, room: usize) -> Option<usize>
    requires sized { Sized q t.now }
    ensures { Left q t.now b first room result }
{
    let mut left = room;
    let mut at = first;
    while at != LinkedTable::NONE {
        if !fits(t, q, s, b, at) {
            return None;
        }
        left = left.checked_sub(1)?;
        at = table::client(t, q, at, LinkedTable::NEXT_IN_BUCKET);
    }
    Some(left)
}

// Whether each row of a short chain that ends has an id of its own: no row after it has that.
fn short_own_ids(t: &[u32], q: usize, first: u32) -> bool
    requires sized { Sized q t.now }
    requires ends { Ends q (next_of q t.now) first }
    ensures { Tells result (OwnIds q t.now first) }
{
    let mut at = first;
    while at != LinkedTable::NONE {
        let id = table::client(t, q, at, LinkedTable::ID);
        at = table::client(t, q, at, LinkedTable::NEXT_IN_BUCKET);
        if seek(t, q, at, id) != LinkedTable::NONE {
            return false;
        }
    }
    true
}

// Whether each row of a long chain that ends has an id of its own: the ids are copied side by side, and each is compared with those before it.
// An array with its length beside it: memory is fixed, and there is no heap.
fn long_own_ids(t: &[u32], q: usize, first: u32) -> bool
    requires sized { Sized q t.now }
    requires ends { Ends q (next_of q t.now) first }
    ensures { Tells result (OwnIds q t.now first) }
{
    let mut ids = [0u32; LinkedTable::LARGEST];
    let mut n: usize = 0;
    let mut at = first;
    while at != LinkedTable::NONE {
        let x = table::client(t, q, at, LinkedTable::ID);
        if ids[..n].contains(&x) {
            return false;
        }
        ids[n] = x;
        n += 1;
        at = table::client(t, q, at, LinkedTable::NEXT_IN_BUCKET);
    }
    true
}

// The ids of at most so many rows are compared through the links: to copy them would cost more.
const SHORT: usize = 8;

// Whether each of the n rows of a chain that ends has an id of its own. One alone has.
fn own_ids(t: &[u32], q: usize, first: u32, n: usize) -> bool
    requires sized { Sized q t.now }
    requires ends { Ends q (next_of q t.now) first }
    requires first_len { length (from q t.now first) ≡ n }
    ensures { Tells result (OwnIds q t.now first) }
{
    if n <= 1 {
        return true;
    }
    if n <= SHORT {
        return short_own_ids(t, q, first);
    }
    long_own_ids(t, q, first)
}

// The exact test, for n clients: every chain is right, and together they hold n rows.
fn by_buckets(t: &[u32], q: usize, s: &Spread, n: u32) -> bool
    requires sized { Sized q t.now }
    ensures { Checked q t.now n result }
{
    let mut room = n as usize;
    for b in 0..q {
        let first = table::bucket(t, q, b);
        let Some(left) = room_after(t, q, s, b, first, room) else {
            return false;
        };
        if !own_ids(t, q, first, room - left) {
            return false;
        }
        room = left;
    }
    room == 0
}

// How many buckets hold a row.
fn heads(t: &[u32], q: usize) -> u32
    requires { Sized q t.now }
    ensures { result ≡ length (filled (bucket_word t.now q) q) }
{
    let mut n = 0;
    for k in 0..q {
        n += u32::from(table::bucket(t, q, k) != LinkedTable::NONE);
    }
    n
}

// How many steps the quick test goes at most: so few that the compiler writes them out one after the other.
const MOST_STEPS: usize = 7;

// Whether the links from `first` on come to row r in a few steps, by clients whose ids are other than x.
fn comes_to(t: &[u32], q: usize, first: u32, r: u32, x: u32) -> bool
    requires { Sized q t.now }
    ensures { result ≡ true → Comes q t.now first r x }
{
    let mut at = first;
    for _ in 0..MOST_STEPS {
        if at == r {
            return true;
        }
        if at as usize >= q {
            return false;
        }
        let count = table::client(t, q, at, LinkedTable::COUNT);
        let other = table::client(t, q, at, LinkedTable::ID);
        if count == 0 || other == x {
            return false;
        }
        at = table::client(t, q, at, LinkedTable::NEXT_IN_BUCKET);
    }
    at == r
}

// Whether row r is come to in its id's bucket. Most rows are the first there.
fn stands(t: &[u32], q: usize, s: &Spread, r: u32) -> bool
    requires sized { Sized q t.now }
    requires r_lt_q { r < q }
    ensures { result ≡ true → Stands q t.now r }
{
    let id = table::client(t, q, r, LinkedTable::ID);
    let home = s.bucket_in(id, q);
    let first = table::bucket(t, q, home);
    comes_to(t, q, first, r, id)
}

// The quick test, for n clients, which a crowded bucket fails: each is come to in its bucket, and n pointers hold a row, so that none leads elsewhere.
fn by_clients(t: &[u32], q: usize, s: &Spread, n: u32) -> bool
    requires sized { Sized q t.now }
    ensures { result ≡ true → Reached q t.now n }
{
    let mut links = heads(t, q);
    for r in 0..q as u32 {
        if table::client(t, q, r, LinkedTable::COUNT) != 0 {
            if !stands(t, q, s, r) {
                return false;
            }
            let next = table::client(t, q, r, LinkedTable::NEXT_IN_BUCKET);
            links += u32::from(next != LinkedTable::NONE);
        }
    }
    links == n
}

// The lookup's part of the soundness check, for n clients: the quick test, which says nothing where it fails, or the exact one.
pub fn check_lookup(t: &[u32], q: usize, s: &Spread, n: u32) -> bool
    requires sized { Sized q t.now }
    ensures { Checked q t.now n result }
{
    by_clients(t, q, s, n) || by_buckets(t, q, s, n)
}
