// Every call on lent words, and what is printed of it.
use crate::damage::{GUARD, WORDS};
use answers::{Refusal, Report};

// Words of an output: three pairs.
const OUT: usize = 6;

// The number of a refusal, 0 where there is none.
pub fn number<T: Drop>(answer: Result<T, Refusal>) -> u32 {
    match answer {
        Ok(_) => 0,
        Err(refusal) => u32::from(refusal),
    }
}

// A run's stop, or its refusal.
fn stop(ran: Result<Report, Refusal>) -> u32 {
    match ran {
        Ok(report) => u32::from(report.stop),
        Err(refusal) => u32::from(refusal),
    }
}

// The numbers of heaviest, lightest, count, oldest and newest.
fn ask(t: &[u32], heavy: &mut [u32], light: &mut [u32]) -> [u32; 5] {
    [
        number(limiter::heaviest(t, 3, heavy)),
        number(limiter::lightest(t, 3, light)),
        number(limiter::count(t, 1)),
        number(limiter::oldest(t, 1)),
        number(limiter::newest(t, 1)),
    ]
}

// The numbers of serve, arrive, slide and a run of one arrival, one after the other.
fn change(t: &mut [u32]) -> [u32; 4] {
    [
        number(limiter::serve(t)),
        number(limiter::arrive(t, 1, 99)),
        number(limiter::slide(t, 1, 99)),
        stop(limiter::run(t, &[1, 1, 0, 0, 0, 99, 0, 0, 0], 1)),
    ]
}

// Every call on the first n words.
fn lend(rt: &impl Print, t: &mut [u32], n: usize, heavy: &mut [u32], light: &mut [u32]) {
    if let Some(lent) = t.get_mut(..n) {
        report::words(rt, &ask(lent, heavy, light));
        report::words(rt, &change(lent));
    }
}

// The rest of a line: the numbers, how many words differ afterwards of all that stand there, and the outputs.
pub fn judge(rt: &impl Print, before: &[u32; WORDS], n: usize) {
    let mut t = *before;
    let mut heavy = [GUARD; OUT];
    let mut light = [GUARD; OUT];
    lend(rt, &mut t, n, &mut heavy, &mut light);
    report::field(rt, b" altered ", report::differ(&t, before));
    report::text(rt, b" heaviest");
    report::words(rt, &heavy);
    report::text(rt, b" lightest");
    report::words(rt, &light);
    report::text(rt, b"\n");
}
