// Records commands of nine bytes from standard input, a block at a time, so that memory does not grow with the recording.
// What is refused is said on standard error; every command before it is in the recording.
#![tactic(auto)]

ghost use Rattle.std.specs.Prelude.{true, cond, ◌≡◌, ◌%◌, ◌≤◌, ◌<◌, eqb, length};
ghost use Rattle.rules.specs.Numbers as number;
ghost use Rattle.rules.specs.Run.{command_bytes};
ghost use Rattle.answers.specs.Numbers.{stop_number};
ghost use Rattle.recording.specs.Kind as kind;
ghost use Rattle.record.specs.Fills.{Fills};

use answers::Stop;
use command::{Command, NineBytes};
use recording::Block;

// What came of a block's commands: how many were recorded, and where the rest of them stops.
#[derive(Clone, Copy)]
struct Filled {
    commands: u64,
    stop: Stop,
}

// Whether bytes are left that are no whole command.
fn left(bytes: usize) -> Stop
    ensures { stop_number result ≡ cond (eqb (bytes % command_bytes) 0) number.ended number.cut }
{
    if bytes % Command::BYTES == 0 {
        Stop::Ended
    } else {
        Stop::Cut
    }
}

// Records the whole commands in s, the first ones of the block with that number, up to one that is refused.
fn fill(block: &mut [u8; Block::BYTES], number: u64, s: &[u8]) -> Filled
    requires { (length block.old ≡ kind.block_bytes) × (number ≤ kind.blocks) × (length s.now ≤ kind.used_at) }
    ensures { Fills number s.now result block.new }
{
    let before = Block::COMMANDS as u64 * number;
    let whole = s.len() / Command::BYTES;
    for k in 0..whole {
        let NineBytes { kind, id, ticket } = command::command_at(s, Command::BYTES * k);
        let kind = u32::from(kind);
        if let Err(refusal) = recorder::record(block, before + k as u64, kind, id, ticket) {
            return Filled {
                commands: k as u64,
                stop: Stop::Block(refusal),
            };
        }
    }
    Filled {
        commands: whole as u64,
        stop: left(s.len()),
    }
}

fn refuse(rt: &impl Eprint, stop: Stop, command: u64) {
    let refused = u32::from(stop);
    let _ = eprintln!(rt; "refused {refused} command {command}");
}

// Records the commands of the block with that number: whether more may follow, which is never so behind the last block.
fn block(rt: &(impl Input + Print + Eprint), number: u64) -> bool
    requires { number ≤ kind.blocks }
    ensures { result ≡ true → number < kind.blocks }
{
    let mut commands = [0u8; Block::USED_AT];
    let mut block = [0u8; Block::BYTES];
    let n = report::input(rt, &mut commands);
    let filled = fill(&mut block, number, &commands[..n]);
    if filled.commands != 0 && !report::output(rt, &block) {
        return false;
    }
    if filled.stop != Stop::Ended {
        refuse(
            rt,
            filled.stop,
            Block::COMMANDS as u64 * number + filled.commands,
        );
        return false;
    }
    n == Block::USED_AT
}

fn main(rt: HostRuntime) {
    if 1 < report::argument_count(&rt) {
        let _ = eprintln!(rt; "usage: record < commands > recording");
        return;
    }
    let mut number = 0;
    while block(&rt, number) {
        number += 1;
    }
}
