// Lay-out's refusals and carve's empty parts, of a Q and a number of words that a line has.
use crate::damage::{GUARD, WORDS};
use crate::judge::number;

// A lay-out in the first n words.
fn laid(rt: &impl Print, t: &mut [u32], q: usize, n: usize) {
    if let Some(lent) = t.get_mut(..n) {
        report::field(rt, b" lay-out ", number(layout::lay_out(lent, q)));
    }
}

// The words of the part that begins there, and a lay-out in it.
fn carved(rt: &impl Print, t: &mut [u32], q: usize, n: usize) {
    let part = layout::carve(t, n, q);
    report::field(rt, b" carve ", part.len());
    report::field(rt, b" lay-out there ", number(layout::lay_out(part, q)));
}

// How many words differ from what they were.
fn altered(rt: &impl Print, t: &[u32]) {
    report::field(rt, b" altered ", report::differ(t, &[GUARD; WORDS]));
}

pub fn line(rt: &impl Print, s: &[u8]) {
    let places = report::find(s, 0, b' ');
    let q = report::number(&s[..places]) as usize;
    let n = report::next(s, places).number as usize;
    let mut t = [GUARD; WORDS];
    let mut pool = [GUARD; WORDS];
    report::text(rt, s);
    report::text(rt, b":");
    laid(rt, &mut t, q, n);
    altered(rt, &t);
    carved(rt, &mut pool, q, n);
    altered(rt, &pool);
    report::text(rt, b"\n");
}
