// What the batch printer prints for the inputs in the files that the arguments name; then the whiteboard's sums that are neither proved nor the printer's.
#![tactic(auto)]

mod listing;
mod running;

use std::rt::{Env, Files};

// A line with the file's name, and what is printed for it.
fn print(rt: &(impl Files + Print), name: &[u8]) {
    let mut input = [0u8; printer::INPUT + 1];
    let mut page = [0u8; printer::PAGE];
    let n = report::load(rt, name, &mut input);
    let m = printer::print(&input[..n], &mut page);
    report::text(rt, name);
    report::text(rt, b":\n");
    report::text(rt, &page[..m]);
}

fn argument(rt: &(impl Env + Files + Print), i: usize) {
    let mut name = [0u8; 64];
    let n = report::argument(rt, i, &mut name);
    print(rt, &name[..n]);
}

fn main(rt: HostRuntime) {
    for i in 1..report::argument_count(&rt) {
        argument(&rt, i);
    }
    listing::all(&rt);
    running::all(&rt);
}
