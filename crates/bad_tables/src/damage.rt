// The table that is damaged, and how a line says what is altered in it: its name, how many words are lent, and PLACE=WORD for each that is altered.
use crate::judge::judge;
use answers::Refusal;
use table::LinkedTable;

// Six places, and eight words beyond the table.
pub const Q: usize = 6;

pub const SIZE: usize = LinkedTable::HEADER_WORDS + LinkedTable::PLACE_WORDS * Q;

pub const WORDS: usize = SIZE + 8;

// What stands in words that no call is to write.
pub const GUARD: u32 = 7;

// The words after these commands. Items 1, 2, 3, 0 wait, of clients 1, 4, 2, 1; items 4, 5 are free.
// Lightest first stand the client rows 3, 2, 1; rows 0, 4, 5 are free. Clients 1 and 4 share bucket 1.
fn base() -> Result<[u32; WORDS], Refusal> {
    let mut t = [GUARD; WORDS];
    layout::lay_out(&mut t, Q)?;
    limiter::arrive(&mut t, 7, 10)?;
    limiter::arrive(&mut t, 1, 11)?;
    limiter::arrive(&mut t, 4, 12)?;
    limiter::slide(&mut t, 2, 13)?;
    limiter::serve(&mut t)?;
    limiter::slide(&mut t, 1, 14)?;
    Ok(t)
}

// PLACE=WORD
fn set(t: &mut [u32], s: &[u8]) {
    let equal = report::find(s, 0, b'=');
    let place = report::number(&s[..equal]) as usize;
    if let Some(word) = t.get_mut(place) {
        *word = report::narrow(report::next(s, equal).number);
    }
}

// Each of them, behind the words that are lent.
fn alter(t: &mut [u32], s: &[u8]) {
    for change in s.split(|b| *b == b' ').skip(1) {
        set(t, change);
    }
}

pub fn line(rt: &impl Print, s: &[u8]) {
    let Ok(mut t) = base() else {
        return;
    };
    let colon = report::find(s, 0, b':');
    let lent = report::next(s, colon + 1);
    if let Some(changes) = s.get(lent.end..) {
        alter(&mut t, changes);
    }
    report::text(rt, &s[..colon]);
    report::text(rt, b":");
    judge(rt, &t, lent.number as usize);
}
