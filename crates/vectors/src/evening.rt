// The recording of the vectors, altered as a line says, and replayed on a fresh table.
use crate::words;
use answers::Replay;
use recording::Block;
use std::rt::Files;

// Its bytes, and room for it twice.
const ONCE: usize = 3 * Block::BYTES;

const TWICE: usize = 2 * ONCE;

// What a line makes of the recording.
#[derive(Clone, Copy)]
enum Case {
    Whole,
    Cut { end: usize },
    Twice,
    Alter { at: usize, byte: u8 },
    Exchange { a: usize, b: usize },
    Reseal { at: usize, byte: u8 },
    SecondFirst,
}

impl Case {
    // The case whose name has that first letter, and its two numbers. One that is too large for a byte is taken as 0.
    fn of(letter: u8, a: usize, b: usize) -> Case {
        let byte = u8::try_from(b).unwrap_or(0);
        match letter {
            b'c' => Case::Cut { end: a },
            b't' => Case::Twice,
            b'a' => Case::Alter { at: a, byte },
            b'e' => Case::Exchange { a, b },
            b'r' => Case::Reseal { at: a, byte },
            b's' => Case::SecondFirst,
            _ => Case::Whole,
        }
    }

    // Where the bytes that are replayed end.
    fn end(self) -> usize {
        match self {
            Case::Cut { end } => end,
            Case::Twice => TWICE,
            _ => ONCE,
        }
    }
}

fn alter(s: &mut [u8], at: usize, byte: u8) {
    if let Some(place) = s.get_mut(at) {
        *place = byte;
    }
}

fn exchange(s: &mut [u8], a: usize, b: usize) {
    if a < s.len() && b < s.len() {
        s.swap(a, b);
    }
}

// The check of the block that has byte `at` is made right.
fn seal(s: &mut [u8], at: usize) {
    let (blocks, _) = s.as_chunks_mut::<{ Block::BYTES }>();
    if let Some(block) = blocks.get_mut(at / Block::BYTES) {
        let check = recording::check(block);
        block[Block::CHECK_AT..].copy_from_slice(&check.to_le_bytes());
    }
}

// The first two blocks are exchanged.
fn second_first(s: &mut [u8; TWICE]) {
    let (blocks, _) = s.as_chunks_mut::<{ Block::BYTES }>();
    blocks.swap(0, 1);
}

fn change(s: &mut [u8; TWICE], case: Case) {
    match case {
        Case::Alter { at, byte } => alter(s, at, byte),
        Case::Exchange { a, b } => exchange(s, a, b),
        Case::Reseal { at, byte } => {
            alter(s, at, byte);
            seal(s, at);
        }
        Case::SecondFirst => second_first(s),
        Case::Whole | Case::Cut { .. } | Case::Twice => {}
    }
}

fn numbers(rt: &impl Print, r: Replay) {
    let s = r.report;
    report::field(rt, b": ", u32::from(s.stop));
    for n in [
        r.blocks, s.done, s.joined, s.evicted, s.passed, s.served, s.turned, s.idle,
    ] {
        report::field(rt, b" ", n);
    }
}

// Replays, and prints what that reports.
fn replay(rt: &impl Print, t: &mut [u32], s: &[u8]) {
    match limiter::replay(t, s, 0) {
        Ok(r) => numbers(rt, r),
        Err(refusal) => report::field(rt, b": refused ", u32::from(refusal)),
    }
}

// The recording, and once more behind it.
fn load(rt: &impl Files) -> [u8; TWICE] {
    let mut s = [0u8; TWICE];
    report::load(rt, b"evening.bin", &mut s[..ONCE]);
    report::load(rt, b"evening.bin", &mut s[ONCE..]);
    s
}

// Replays what a case makes of the recording, on a fresh table of q places; nothing where under two bytes say the case.
// Of the two whose first letter is w, `without the first` has i behind it.
fn carry_out(rt: &(impl Files + Print), said: &[u8], t: &mut [u32], q: usize) {
    let [first, second, ..] = said else {
        return;
    };
    let a = report::next(said, report::find(said, 0, b' '));
    let b = report::next(said, a.end);
    let case = Case::of(*first, a.number as usize, b.number as usize);
    let from = if *second == b'i' { Block::BYTES } else { 0 };
    let mut s = load(rt);
    change(&mut s, case);
    let _ = layout::lay_out(t, q);
    if let Some(part) = s.get(from..case.end()) {
        replay(rt, t, part);
    }
}

// A line of the vectors: places and case, and what the replay comes to.
pub fn line(rt: &(impl Files + Print), s: &[u8], t: &mut [u32]) {
    let places = report::next(s, report::find(s, 0, b' '));
    let q = places.number as usize;
    report::text(rt, &s[..report::find(s, 0, b':')]);
    if let Some([_, said @ ..]) = s.get(places.end..) {
        carry_out(rt, said, t, q);
    }
    report::text(rt, b" :");
    words::print(rt, t, q);
}
