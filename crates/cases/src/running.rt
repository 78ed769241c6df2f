// Budgets, each on a fresh table.
use crate::listing::{Q, SIZE};
use answers::Report;
use std::rt::Files;

fn line(rt: &impl Print, r: Report) {
    report::field(rt, b" stop ", u32::from(r.stop));
    report::field(rt, b" done ", r.done);
    report::field(rt, b" joined ", r.joined);
    report::field(rt, b" evicted ", r.evicted);
    report::field(rt, b" passed ", r.passed);
    report::field(rt, b" served ", r.served);
    report::field(rt, b" turned ", r.turned);
    report::field(rt, b" idle ", r.idle);
}

// Runs the commands of a printer's input, whatever its Q, with a budget.
fn run(rt: &(impl Files + Print), name: &[u8], budget: u64) {
    let mut t = [0u32; SIZE];
    let mut input = [0u8; 128];
    let n = report::load(rt, name, &mut input);
    let _ = layout::lay_out(&mut t, Q);
    report::text(rt, name);
    report::field(rt, b", budget ", budget);
    if let Some(commands) = input.get(2..n) {
        match limiter::run(&mut t, commands, budget) {
            Ok(r) => line(rt, r),
            Err(refusal) => report::field(rt, b" refused ", u32::from(refusal)),
        }
    }
    report::text(rt, b"\n");
}

pub fn all(rt: &(impl Files + Print)) {
    run(rt, b"session", 9);
    run(rt, b"session", 8);
    run(rt, b"session", 0);
    run(rt, b"session", u64::MAX);
    run(rt, b"no_command", 0);
    run(rt, b"cut_command", 0);
    run(rt, b"bad_kind", 0);
}
