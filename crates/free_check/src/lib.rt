// The check of a chain of free rows: one for items and clients, which differ in where their rows stand and by which word free ones chain.
#![tactic(auto)]

ghost use Rattle.std.specs.Prelude.{◌+◌, ◌≤◌, length, get_or};
ghost use Rattle.rules.specs.Tells.{Tells};
ghost use Rattle.free_check.specs.Free.{Fit, Blank, Free, words_of};

use table::LinkedTable;

// Rows of one kind: where row 0 stands, the words of a row, and the one that chains free rows.
#[derive(Clone, Copy)]
pub struct Rows {
    pub from: usize,
    pub width: usize,
    pub link: usize,
}

// Whether every word of the row is 0 but the one that chains free rows.
fn blank(row: &[u32], link: usize) -> bool
    ensures { Tells result (Blank (length row.now) link (λ f. get_or row.now f 0)) }
{
    row.iter()
        .enumerate()
        .all(|(f, word)| f == link || *word == 0)
}

// Whether the chain of free rows from `first` on has n rows, all blank, and then ends.
pub fn free_rows(t: &[u32], rows: Rows, q: usize, first: u32, n: usize) -> bool
    requires { Fit q rows t.now }
    ensures { Tells result (Free q rows.width rows.link (words_of rows.from rows.width t.now) first n) }
{
    let Rows { from, width, link } = rows;
    // Rows are compared in the 32 bits that they have in the table.
    let past = q as u32;
    let mut at = first;
    for _ in 0..n {
        if past <= at {
            return false;
        }
        let start = from + width * (at as usize);
        let row = &t[start..start + width];
        if !blank(row, link) {
            return false;
        }
        at = row[link];
    }
    at == LinkedTable::NONE
}
