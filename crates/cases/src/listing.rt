// The largest k, whatever the output holds.
use answers::Refusal;
use table::LinkedTable;

pub const Q: usize = 4;

pub const SIZE: usize = LinkedTable::HEADER_WORDS + LinkedTable::PLACE_WORDS * Q;

// More pairs than any table has clients; twice it passes 64 bits.
const K: usize = usize::MAX;

fn number(rt: &impl Print, answer: Result<usize, Refusal>) {
    match answer {
        Ok(pairs) => report::field(rt, b" gives ", pairs),
        Err(refusal) => report::field(rt, b" refused ", u32::from(refusal)),
    }
}

// What heaviest and lightest give, and the output afterwards.
fn ask(rt: &impl Print, t: &[u32], out: &mut [u32]) {
    report::field(rt, b"k 2^64-1, output of ", out.len());
    number(rt, limiter::heaviest(t, K, out));
    number(rt, limiter::lightest(t, K, out));
    report::words(rt, out);
    report::text(rt, b"\n");
}

// Nobody waits; then one client, and an output of none, of one and of two words.
pub fn all(rt: &impl Print) {
    let mut t = [0u32; SIZE];
    let _ = layout::lay_out(&mut t, Q);
    ask(rt, &t, &mut []);
    let _ = limiter::arrive(&mut t, 7, 70);
    let _ = limiter::arrive(&mut t, 7, 71);
    ask(rt, &t, &mut []);
    ask(rt, &t, &mut [9]);
    ask(rt, &t, &mut [9; 2]);
}
