// Every call on tables that are damaged, short, or sound in unusual ways, a line for each; then lay-out and carve on all kinds of Q and room.
#![tactic(auto)]

mod damage;
mod judge;
mod room;

use std::rt::Files;

// Room for the longest file.
const TEXT: usize = 65_536;

// Reads a file, and takes a step at each of its lines.
fn each_line<F: FnMut(&[u8])>(rt: &impl Files, path: &[u8], step: F)
    requires { F.IsAlwaysCallable step }
{
    let mut text = [0u8; TEXT];
    let n = report::load(rt, path, &mut text);
    text[..n]
        .split_inclusive(|b| *b == b'\n')
        .map(|line| line.strip_suffix(b"\n").unwrap_or(line))
        .for_each(step);
}

fn main(rt: HostRuntime) {
    each_line(&rt, b"damage.txt", |line| damage::line(&rt, line));
    each_line(&rt, b"room.txt", |line| room::line(&rt, line));
}
