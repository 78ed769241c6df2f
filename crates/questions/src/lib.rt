// The questions on a table: heaviest and lightest first, count, oldest and newest. None of them writes a word of it.
// They rest on words that are exactly a sound table (`Ready`) and on the spread table, which is lent down.
#![tactic(auto)]

ghost use Rattle.std.specs.Prelude.{◌≡◌, ◌++◌, ℕ, ◌*◌, ◌≤◌, ◌<◌, length, drop};
ghost use Rattle.table.specs.Kind as kind;
ghost use Rattle.table.specs.Regions.{Sized, regions};
ghost use Rattle.table.specs.Owners.{order_words};
ghost use Rattle.rules.specs.Rows.{Below};
ghost use Rattle.rules.specs.Linked.{Link};
ghost use Rattle.rules.specs.History as history;
ghost use Rattle.rules.specs.Picture.{client_rows, plain};
ghost use Rattle.rules.specs.Sound.{picture};
ghost use Rattle.rules.specs.Ready.{Ready};
ghost use Rattle.lookup.specs.Promise.{Found};
ghost use Rattle.answers.specs.Engine.{listing, own_ticket};
ghost use Rattle.questions.specs.Row.{RowOf};
ghost use Rattle.questions.specs.Walk.{clients_from, pairs_from};
ghost use Rattle.questions.specs.Output.{listed_words};

use answers::Refusal;
use spread::Spread;
use table::{LinkedTable, Ticket};

// Writes id and count of n clients, from the row `first` on by the client word `link`.
fn list(t: &[u32], q: usize, first: u32, link: usize, n: usize, out: &mut [u32])
    requires sized { Sized q t.now }
    requires link_lt_client_words { (link < kind.client_words) × (2 * n ≤ length out.old) }
    requires below { Below q (clients_from q t.now link n first) }
    ensures { out.new ≡ pairs_from q t.now link n first ++ drop (2 * n) out.old }
{
    let mut row = first;
    for i in 0..n {
        out[2 * i] = table::client(t, q, row, LinkedTable::ID);
        out[2 * i + 1] = table::client(t, q, row, LinkedTable::COUNT);
        row = table::client(t, q, row, link);
    }
}

// How many pairs a listing of k clients has, where so many words have room for them.
// The smaller of k and the number of clients is taken before anything is doubled.
fn given(t: &[u32], q: usize, k: usize, words: usize) -> Result<usize, Refusal>
    requires { Ready q t.now }
    ensures { result ≡ listing k words (plain (picture t.now)) }
{
    let clients = table::header(t, q, LinkedTable::CLIENTS_AT);
    let n = k.min(clients as usize);
    if words < 2 * n {
        Err(Refusal::NoRoom)
    } else {
        Ok(n)
    }
}

// Heaviest first: id and count of min(k, clients) clients.
pub fn heaviest(t: &[u32], q: usize, k: usize, out: &mut [u32]) -> Result<usize, Refusal>
    requires { Ready q t.now }
    ensures reply { result ≡ listing k (length out.old) (plain (picture t.now)) }
    ensures words { out.new ≡ listed_words history.heaviest k (plain (picture t.now)) out.old }
{
    let n = given(t, q, k, out.len())?;
    let first = table::header(t, q, LinkedTable::HEAVIEST_AT);
    list(t, q, first, LinkedTable::LIGHTER, n, out);
    Ok(n)
}

// Lightest first.
pub fn lightest(t: &[u32], q: usize, k: usize, out: &mut [u32]) -> Result<usize, Refusal>
    requires { Ready q t.now }
    ensures reply { result ≡ listing k (length out.old) (plain (picture t.now)) }
    ensures words { out.new ≡ listed_words history.lightest k (plain (picture t.now)) out.old }
{
    let n = given(t, q, k, out.len())?;
    let first = table::header(t, q, LinkedTable::LIGHTEST_AT);
    list(t, q, first, LinkedTable::HEAVIER, n, out);
    Ok(n)
}

// How many requests wait of the client whose row the lookup gave: 0 where it gave none.
pub fn count_in(t: &[u32], q: usize, r: u32) -> u32
    requires ready { Ready q t.now }
    requires link { Link q r }
    ensures { (id : ℕ) → Found (order_words (regions q t.now)).id (client_rows (picture t.now)) id r → result ≡ history.count_of (plain (picture t.now)) id }
{
    if r == LinkedTable::NONE {
        return 0;
    }
    table::client(t, q, r, LinkedTable::COUNT)
}

// How many requests of that client wait: 0 for an absent one.
pub fn count(t: &[u32], q: usize, s: &Spread, id: u32) -> u32
    requires ready { Ready q t.now }
    ensures { result ≡ history.count_of (plain (picture t.now)) id }
{
    count_in(t, q, lookup::find(t, q, s, id).row)
}

// The row of that client.
fn row_of(t: &[u32], q: usize, s: &Spread, id: u32) -> Result<u32, Refusal>
    requires { Ready q t.now }
    ensures { RowOf (picture t.now) id result }
{
    let row = lookup::find(t, q, s, id).row;
    if row == LinkedTable::NONE {
        Err(Refusal::NoClient)
    } else {
        Ok(row)
    }
}

// The ticket of that client's oldest request.
pub fn oldest(t: &[u32], q: usize, s: &Spread, id: u32) -> Result<Ticket, Refusal>
    requires ready { Ready q t.now }
    ensures { result ≡ own_ticket history.oldest_ticket (plain (picture t.now)) id }
{
    let row = row_of(t, q, s, id)?;
    let i = table::client(t, q, row, LinkedTable::OLDEST);
    Ok(table::ticket(t, q, i))
}

// The ticket of its newest.
pub fn newest(t: &[u32], q: usize, s: &Spread, id: u32) -> Result<Ticket, Refusal>
    requires ready { Ready q t.now }
    ensures { result ≡ own_ticket history.newest_ticket (plain (picture t.now)) id }
{
    let row = row_of(t, q, s, id)?;
    let i = table::client(t, q, row, LinkedTable::NEWEST);
    Ok(table::ticket(t, q, i))
}
