// The batch printer on standard input. One byte more than it takes is read, to notice over-long input.
#![tactic(auto)]

fn main(rt: HostRuntime) {
    let mut input = [0u8; printer::INPUT + 1];
    let mut page = [0u8; printer::PAGE];
    let n = report::read_full(&mut rt.reader(), &mut input).bytes;
    let m = printer::print(&input[..n], &mut page);
    report::text(&rt, &page[..m]);
}
