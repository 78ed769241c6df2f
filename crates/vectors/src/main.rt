// Carries out the commands of the vectors, and prints each line of them as the calls have it: the reply, and every word of the table. Then the same of the replays.
#![tactic(auto)]

mod evening;
mod reply;
mod words;

use crate::reply::Command;
use crate::words::Table;
use std::rt::Files;

// Room for the longest file.
const TEXT: usize = 131_072;

// A table begins: its places, and its words after the lay-out.
fn begin(rt: &impl Print, table: &mut Table, places: usize) {
    table.lay_out(places);
    report::field(rt, b"table ", places);
    report::text(rt, b"\nlay-out :");
    table.print(rt);
}

// A command in words, its reply, and the table's words after it.
fn command(rt: &impl Print, s: &[u8], letter: u8, table: &mut Table) {
    let id = report::next(s, report::find(s, 0, b' '));
    let ticket = report::next(s, id.end);
    report::text(rt, &s[..report::find(s, 0, b':')]);
    report::text(rt, b": ");
    reply::of(
        rt,
        &mut table.words,
        Command::of(letter, id.number, ticket.number),
    );
    report::text(rt, b" :");
    table.print(rt);
}

// A line of the vectors. That of a lay-out says what its table's line did.
fn line(rt: &(impl Files + Print), s: &[u8], table: &mut Table) {
    match s {
        [] | [_] | [b'l', ..] => {}
        [b'p', ..] => evening::line(rt, s, &mut table.words),
        [b't', ..] => {
            let places = report::next(s, report::find(s, 0, b' '));
            begin(rt, table, places.number as usize);
        }
        [_, letter, ..] => command(rt, s, *letter, table),
    }
}

fn file(rt: &(impl Files + Print), path: &[u8]) {
    let mut text = [0u8; TEXT];
    let mut table = Table::new();
    let n = report::load(rt, path, &mut text);
    for s in text[..n].split_inclusive(|b| *b == b'\n') {
        line(rt, s.strip_suffix(b"\n").unwrap_or(s), &mut table);
    }
}

fn main(rt: HostRuntime) {
    file(&rt, b"session.txt");
    file(&rt, b"small.txt");
    file(&rt, b"evening.txt");
}
