// The order of clients (HL-HITTERS, algorithms 2, 3 and 4): a list from lightest to heaviest, and the two ends of each group of equal counts.
// The functions rest on a sound table: its size (`Sized`), an order that is right (`Listed`, `Vacant`), and to dismiss also a lookup that is (`Kept`).
#![tactic(auto)]

ghost use Rattle.std.specs.Prelude.{◌≡◌, ◌+◌, ◌<◌, ◌≤◌, get_or};
ghost use Rattle.table.specs.Kind as kind;
ghost use Rattle.table.specs.Regions.{Sized, Writes, client_word, count_word};
ghost use Rattle.rules.specs.Rows.{In};
ghost use Rattle.rules.specs.Linked.{Link};
ghost use Rattle.lookup.specs.Promise.{Home, Kept};
ghost use Rattle.order.specs.Moves.{or_else, leave_group, enter_group, take_out, put_in, move_after, move_before, raised, lowered, take_row, one_more, one_less, clear_row, free_row};
ghost use Rattle.order.specs.Asks.{Drawn, Listed, Vacant, Strung, Admits, Dismisses};

use lookup::Sought;
use spread::Spread;
use table::LinkedTable;

// r leaves the group of count row k: an end that it is becomes its neighbour inside, and none where nobody is left.
fn leave_group(t: &mut [u32], q: usize, r: u32, k: usize)
    requires sized { Sized q t.old }
    requires r_lt_q { (r < q) × (k < q) }
    ensures writes { Writes q t.old t.new (leave_group r k) }
    ensures still_sized { Sized q t.new }
{
    let a = table::count_end(t, q, k, LinkedTable::LIGHT_END);
    let b = table::count_end(t, q, k, LinkedTable::HEAVY_END);
    if a == r {
        if b == r {
            table::set_count_end(t, q, k, LinkedTable::LIGHT_END, LinkedTable::NONE);
            table::set_count_end(t, q, k, LinkedTable::HEAVY_END, LinkedTable::NONE);
        } else {
            let l = table::client(t, q, r, LinkedTable::HEAVIER);
            table::set_count_end(t, q, k, LinkedTable::LIGHT_END, l);
        }
    } else if b == r {
        let e = table::client(t, q, r, LinkedTable::LIGHTER);
        table::set_count_end(t, q, k, LinkedTable::HEAVY_END, e);
    }
}

// x, or y where x is none.
fn or_else(x: u32, y: u32) -> u32
    ensures { result ≡ or_else x y }
{
    if x == LinkedTable::NONE { y } else { x }
}

// r enters the group of count row k at its lighter end.
fn enter_group(t: &mut [u32], q: usize, r: u32, k: usize)
    requires sized { Sized q t.old }
    requires k_lt_q { k < q }
    ensures writes { Writes q t.old t.new (enter_group r k) }
    ensures still_sized { Sized q t.new }
{
    let b = or_else(table::count_end(t, q, k, LinkedTable::HEAVY_END), r);
    table::set_count_end(t, q, k, LinkedTable::LIGHT_END, r);
    table::set_count_end(t, q, k, LinkedTable::HEAVY_END, b);
}

// r comes to stand after e in the list; where e is r, it stands there already.
fn move_after(t: &mut [u32], q: usize, r: u32, e: u32)
    requires sized { Sized q t.old }
    requires drawn { Drawn q t.old (Strung q r e) }
    ensures writes { Writes q t.old t.new (move_after r e) }
    ensures still_sized { Sized q t.new }
{
    if e != r {
        links::unlink_client(t, q, r);
        links::insert_client_after(t, q, r, e);
    }
}

// r, which does not stand just before l, comes to stand there; where l is r, it stands right already.
fn move_before(t: &mut [u32], q: usize, r: u32, l: u32)
    requires sized { Sized q t.old }
    requires drawn { Drawn q t.old (Strung q r l) }
    requires not_lighter { client_word t.old q l kind.lighter ≡ r → ⊥ }
    ensures writes { Writes q t.old t.new (move_before r l) }
    ensures still_sized { Sized q t.new }
{
    if l != r {
        links::unlink_client(t, q, r);
        links::insert_client_before(t, q, r, l);
    }
}

// The count n of the client in row r rises by one. The heavy end of a group stays where it stands in the list.
pub fn raise(t: &mut [u32], q: usize, r: u32, n: u32)
    requires sized { Sized q t.old }
    requires drawn { Drawn q t.old (Listed q r (λ m. m < q)) }
    requires n_value { n ≡ client_word t.old q r kind.count }
    ensures writes { Writes q t.old t.new (raised r) }
    ensures still_sized { Sized q t.new }
{
    let k = (n - 1) as usize;
    let e = table::count_end(t, q, k, LinkedTable::HEAVY_END);
    leave_group(t, q, r, k);
    move_after(t, q, r, e);
    table::set_client(t, q, r, LinkedTable::COUNT, n + 1);
    enter_group(t, q, r, k + 1);
}

// The light end of count row k, or of the next one where nobody is in that group.
fn light_end(t: &[u32], q: usize, k: usize) -> u32
    requires sized { Sized q t.now }
    requires k_bound { k + 1 < q }
    ensures { result ≡ or_else (count_word t.now q k kind.light_end) (count_word t.now q (k + 1) kind.light_end) }
{
    let below = table::count_end(t, q, k, LinkedTable::LIGHT_END);
    let own = table::count_end(t, q, k + 1, LinkedTable::LIGHT_END);
    or_else(below, own)
}

// The count n of the client in row r falls by one, and not to 0. The light end of a group stays where it stands if nobody is in the group below.
pub fn lower(t: &mut [u32], q: usize, r: u32, n: u32)
    requires sized { Sized q t.old }
    requires drawn { Drawn q t.old (Listed q r (λ m. 2 ≤ m)) }
    requires n_value { n ≡ client_word t.old q r kind.count }
    ensures writes { Writes q t.old t.new (lowered r) }
    ensures still_sized { Sized q t.new }
{
    let k = (n - 2) as usize;
    let l = light_end(t, q, k);
    leave_group(t, q, r, k + 1);
    move_before(t, q, r, l);
    table::set_client(t, q, r, LinkedTable::COUNT, n - 1);
    enter_group(t, q, r, k);
}

// The first free row is taken, and holds the id.
fn take_row(t: &mut [u32], q: usize, id: u32) -> u32
    requires sized { Sized q t.old }
    requires free_client_at_bound { get_or t.old kind.free_client_at 0 < q }
    ensures value { result ≡ get_or t.old kind.free_client_at 0 }
    ensures writes { Writes q t.old t.new (take_row result id) }
    ensures still_sized { Sized q t.new }
{
    let r = links::take_client(t, q);
    table::set_client(t, q, r, LinkedTable::ID, id);
    r
}

// r comes to stand lightest of all, with the count 1.
fn put_first(t: &mut [u32], q: usize, r: u32)
    requires sized { Sized q t.old }
    requires r_lt_q { r < q }
    requires link { Link q (get_or t.old kind.lightest_at 0) }
    ensures writes { Writes q t.old t.new (put_in r 1 kind.none) }
    ensures still_sized { Sized q t.new }
{
    let l = table::header(t, q, LinkedTable::LIGHTEST_AT);
    links::insert_client(t, q, r, LinkedTable::NONE, l);
    table::set_client(t, q, r, LinkedTable::COUNT, 1);
    enter_group(t, q, r, 0);
}

// One client more.
fn one_more(t: &mut [u32], q: usize)
    requires sized { Sized q t.old }
    requires clients_at_bound { get_or t.old kind.clients_at 0 < q }
    ensures writes { Writes q t.old t.new one_more }
    ensures still_sized { Sized q t.new }
{
    let n = table::header(t, q, LinkedTable::CLIENTS_AT);
    table::set_header(t, q, LinkedTable::CLIENTS_AT, n + 1);
}

// A client that is not there comes: in the first free row, in front of the bucket where its id was sought, lightest of all with the count 1. The row is the reply.
pub fn admit(t: &mut [u32], q: usize, at: Sought, id: u32) -> u32
    requires sized { Sized q t.old }
    requires home { Home q id at }
    requires drawn { Drawn q t.old (Vacant q) }
    ensures value { result ≡ get_or t.old kind.free_client_at 0 }
    ensures admits { Admits q t.old t.new id result }
    ensures still_sized { Sized q t.new }
{
    let r = take_row(t, q, id);
    lookup::enter(t, q, at, r);
    put_first(t, q, r);
    one_more(t, q);
    r
}

// r leaves its group and the list.
fn remove(t: &mut [u32], q: usize, r: u32)
    requires sized { Sized q t.old }
    requires drawn { Drawn q t.old (Listed q r (λ m. Unit {0})) }
    ensures writes { Writes q t.old t.new (take_out r) }
    ensures still_sized { Sized q t.new }
{
    let n = table::client(t, q, r, LinkedTable::COUNT);
    leave_group(t, q, r, (n - 1) as usize);
    links::unlink_client(t, q, r);
}

// The words of this layer in row r become 0, but for the chain's.
fn clear_row(t: &mut [u32], q: usize, r: u32)
    requires sized { Sized q t.old }
    requires r_lt_q { r < q }
    ensures writes { Writes q t.old t.new (clear_row r) }
    ensures still_sized { Sized q t.new }
{
    table::set_client(t, q, r, LinkedTable::ID, 0);
    table::set_client(t, q, r, LinkedTable::COUNT, 0);
    table::set_client(t, q, r, LinkedTable::LIGHTER, 0);
}

// Row r becomes the first free one. The words of the other layers in it are 0 already: the lookup has cleared its own, and a client that goes has no items.
fn free_row(t: &mut [u32], q: usize, r: u32)
    requires sized { Sized q t.old }
    requires r_lt_q { r < q }
    ensures writes { Writes q t.old t.new (free_row r) }
    ensures still_sized { Sized q t.new }
{
    let first = table::header(t, q, LinkedTable::FREE_CLIENT_AT);
    clear_row(t, q, r);
    table::set_client(t, q, r, LinkedTable::HEAVIER, first);
    table::set_header(t, q, LinkedTable::FREE_CLIENT_AT, r);
}

// One client less.
fn one_less(t: &mut [u32], q: usize)
    requires sized { Sized q t.old }
    requires bound { 1 ≤ get_or t.old kind.clients_at 0 }
    ensures writes { Writes q t.old t.new one_less }
    ensures still_sized { Sized q t.new }
{
    let n = table::header(t, q, LinkedTable::CLIENTS_AT);
    table::set_header(t, q, LinkedTable::CLIENTS_AT, n - 1);
}

// A client goes, out of its bucket, its group and the list, and its row becomes the first free one.
pub fn dismiss(t: &mut [u32], q: usize, s: &Spread, r: u32)
    requires sized { Sized q t.old }
    requires drawn { Drawn q t.old (Listed q r (λ m. Unit {0})) }
    requires a_client { (K : Kept q t.old) × In r K.clients }
    ensures dismisses { Dismisses q t.old t.new r }
    ensures still_sized { Sized q t.new }
{
    lookup::leave(t, q, s, r);
    remove(t, q, r);
    free_row(t, q, r);
    one_less(t, q);
}
