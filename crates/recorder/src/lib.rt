// The recorder: one command more in the block in the making, which is then as it belongs in the file.
#![tactic(auto)]

ghost use Rattle.std.specs.Prelude.{◌++◌, ◌≡◌, suc, ◌+◌, ◌*◌, ◌-◌, ◌%◌, ◌≤◌, ◌<◌, length, take, replicate};
ghost use Rattle.std.proofs.lemmas.List.Edits.{sets};
ghost use Rattle.rules.specs.Run as rule;
ghost use Rattle.answers.specs.Numbers.{done_number};
ghost use Rattle.recording.specs.Kind as kind;
ghost use Rattle.command.specs.Bytes.{as_command, four_of, bytes_of};
ghost use Rattle.recording.specs.Block.{two_of, checked, sealed};
ghost use Rattle.recorder.specs.Record.{record_number, record_block};

use answers::Refusal;
use command::Command;
use recording::Block;

// A number in two bytes, lowest first, from place `at` on.
fn put_two(s: &mut [u8], at: usize, x: u16)
    requires { at + 2 ≤ length s.old }
    ensures { s.new ≡ sets s.old at (two_of x) }
{
    s[at..at + 2].copy_from_slice(&x.to_le_bytes());
}

// In four bytes.
pub fn put_four(s: &mut [u8], at: usize, x: u32)
    requires { at + 4 ≤ length s.old }
    ensures { s.new ≡ sets s.old at (four_of x) }
{
    s[at..at + 4].copy_from_slice(&x.to_le_bytes());
}

// The command bytes of a block: those before place `from` as they are, a command behind them, zeros.
fn lay(b: &mut [u8], from: usize, c: Command)
    requires b_len { length b.old ≡ kind.block_bytes }
    requires command_bytes_bound { from + rule.command_bytes ≤ kind.used_at }
    ensures { take kind.used_at b.new ≡ take from b.old ++ bytes_of (as_command c) ++ replicate (kind.used_at - (from + rule.command_bytes)) 0 }
{
    let to = from + Command::BYTES;
    b[from..to].copy_from_slice(&c.bytes());
    b[to..Block::USED_AT].fill(0);
}

// The numbers and the check, behind the command bytes.
fn seal(b: &mut [u8], used: u16, number: u16)
    requires { length b.old ≡ kind.block_bytes }
    ensures { b.new ≡ checked (take kind.used_at b.old ++ two_of used ++ two_of number) }
{
    put_two(b, Block::USED_AT, used);
    put_two(b, Block::NUMBER_AT, number);
    let sum = recording::check(b);
    put_four(b, Block::CHECK_AT, sum);
}

// The whole block, where `used` commands of it stand already.
fn write(b: &mut [u8], used: usize, number: u16, c: Command)
    requires b_len { length b.old ≡ kind.block_bytes }
    requires used_lt_commands { used < kind.commands }
    ensures { b.new ≡ sealed (take (rule.command_bytes * used) b.old ++ bytes_of (as_command c)) (suc used) number }
{
    lay(b, Command::BYTES * used, c);
    seal(b, used as u16 + 1, number);
}

// Records one command more, after so many, unless kind, id and ticket are no command or all blocks are full.
pub fn record(
    block: &mut [u8; Block::BYTES],
    recorded: u64,
    kind: u32,
    id: u32,
    ticket: u32,
) -> Result<(), Refusal>
    ensures number { done_number result ≡ record_number recorded kind id ticket }
    ensures bytes { block.new ≡ record_block recorded kind id ticket block.old }
{
    let Some(c) = Command::of(kind, id, ticket) else {
        return Err(Refusal::BadRecorded);
    };
    if Block::MOST_COMMANDS <= recorded {
        return Err(Refusal::Full);
    }
    let used = (recorded % Block::COMMANDS as u64) as usize;
    let number = (recorded / Block::COMMANDS as u64) as u16;
    write(block, used, number, c);
    Ok(())
}
