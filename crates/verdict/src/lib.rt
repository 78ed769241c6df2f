// The verdict on lent words: the tests in document 01's order, the last of them put together from the layers' parts of the soundness check.
// It asks nothing of the words.
#![tactic(auto)]

ghost use Rattle.std.specs.Prelude.{◌≡◌, ◌+◌, ◌≤◌, get_or};
ghost use Rattle.table.specs.Kind as kind;
ghost use Rattle.table.specs.Regions.{Sized};
ghost use Rattle.rules.specs.Tells.{Tells};
ghost use Rattle.rules.specs.Sound.{sound};
ghost use Rattle.answers.specs.Offered.{opened_on};
ghost use Rattle.verdict.specs.Zeros.{Zeros};

use answers::Refusal;
use spread::Spread;
use table::LinkedTable;

// Whether the words are all 0.
fn zeros(words: &[u32]) -> bool
    ensures { Tells result (Zeros words.now) }
{
    words.iter().all(|word| *word == 0)
}

// Whether a table whose mark and Q are right is sound: header, clients, lookup, items, each resting on those before it.
fn whole(t: &[u32], q: usize, s: &Spread) -> bool
    requires sized { Sized q t.now }
    requires le_q { 1 ≤ q }
    requires mark_at_value { (get_or t.now kind.mark_at 0 ≡ kind.mark) × (get_or t.now kind.places_at 0 ≡ q) }
    ensures { result ≡ sound t.now }
{
    if !zeros(&t[LinkedTable::ZEROS_AT..LinkedTable::HEADER_WORDS]) {
        return false;
    }
    if !order_check::check_order(t, q) {
        return false;
    }
    let n = table::header(t, q, LinkedTable::CLIENTS_AT);
    if !lookup::check_lookup(t, q, s, n) {
        return false;
    }
    items_check::check_items(t, q)
}

// What the words lent hold: the Q of a sound table, or why every call but lay-out is refused.
pub fn of(t: &[u32], s: &Spread) -> Result<usize, Refusal>
    ensures { result ≡ opened_on t.now }
{
    if t.len() < LinkedTable::HEADER_WORDS {
        return Err(Refusal::TooShort);
    }
    if t[LinkedTable::MARK_AT] != LinkedTable::MARK {
        return Err(Refusal::Unsound);
    }
    let q = t[LinkedTable::PLACES_AT] as usize;
    if !LinkedTable::in_range(q) {
        return Err(Refusal::Unsound);
    }
    let need = LinkedTable::size(q);
    if t.len() < need {
        return Err(Refusal::TooShort);
    }
    if !whole(&t[..need], q, s) {
        return Err(Refusal::Unsound);
    }
    Ok(q)
}
