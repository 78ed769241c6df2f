// A replay on a ready table: the tests of a block in their order, all of them before any of its commands, and block after block.
#![tactic(auto)]

ghost use Rattle.std.specs.Prelude.{◌≡◌, ◌*◌, ◌≤◌, take, MatchResult};
ghost use Rattle.std.proofs.Math.Seq.{slice};
ghost use Rattle.rules.specs.Run as rule;
ghost use Rattle.rules.specs.Draw.{draw};
ghost use Rattle.rules.specs.Sound.{picture};
ghost use Rattle.rules.specs.Ready.{Ready};
ghost use Rattle.recording.specs.Kind as kind;
ghost use Rattle.recording.specs.Block as format;
ghost use Rattle.recording.specs.Replay.{replayed};
ghost use Rattle.answers.specs.Numbers.{refusal_number, done_number};
ghost use Rattle.run.specs.Runs.{reported};
ghost use Rattle.replayer.specs.Replays.{replay_from, both_of, BothFit, nothing_with, BlockFirst};

use answers::{Refusal, Replay, Report, Stop};
use command::Command;
use recording::Block;
use spread::Spread;

// Whether the command bytes behind the used ones are 0.
fn unused_zero(b: &[u8; Block::BYTES], used: usize) -> bool
    requires { used ≤ kind.commands }
    ensures { result ≡ format.zeros (slice (rule.command_bytes * used) kind.used_at b.now) }
{
    b[Command::BYTES * used..Block::USED_AT]
        .iter()
        .all(|byte| *byte == 0)
}

// How many commands of a block are used.
fn used_in(b: &[u8; Block::BYTES]) -> usize
    ensures { result ≡ format.used_in b.now }
{
    recording::number(b, Block::USED_AT) as usize
}

// Whether that number and the unused bytes are right.
fn used_right(b: &[u8; Block::BYTES]) -> bool
    ensures { result ≡ format.used_right b.now }
{
    let used = used_in(b);
    (1..=Block::COMMANDS).contains(&used) && unused_zero(b, used)
}

// Whether a run would carry out all the used commands. It tests them all, even behind a bad one, and branches on none: where the first bad
// one ends it, the tests of a full block take 1.7 to 1.9 times as long, and a replay too long beside a run.
fn all_known(b: &[u8; Block::BYTES]) -> bool
    requires { format.used_in b.now ≤ kind.commands }
    ensures { result ≡ format.all_known b.now }
{
    let mut all = true;
    for k in 0..used_in(b) {
        all &= command::is_command_at(b, Command::BYTES * k);
    }
    all
}

// The first test that fails of a block that should have that number.
fn failing(b: &[u8; Block::BYTES], number: u64) -> Result<(), Refusal>
    ensures { done_number result ≡ format.failing number b.now }
{
    if recording::check(b) != command::number(b, Block::CHECK_AT) {
        return Err(Refusal::WrongCheck);
    }
    if u64::from(recording::number(b, Block::NUMBER_AT)) != number {
        return Err(Refusal::WrongNumber);
    }
    if !used_right(b) {
        return Err(Refusal::WrongUse);
    }
    if !all_known(b) {
        return Err(Refusal::BadRecorded);
    }
    Ok(())
}

// The block that bytes begin with and the bytes behind it, if it passes the tests in their order; or the first that it fails.
fn next_block(bytes: &[u8], number: u64) -> Result<(&[u8; Block::BYTES], &[u8]), Refusal>
    ensures { MatchResult result
        (λ p. BlockFirst number bytes.now p.0.now p.1.now)
        (λ x. refusal_number x ≡ format.failing number (take kind.block_bytes bytes.now)) }
{
    let Some((block, behind)) = bytes.split_first_chunk() else {
        return Err(Refusal::ShortBlock);
    };
    failing(block, number)?;
    Ok((block, behind))
}

// Carries out the commands of a block.
fn carry_out(t: &mut [u32], q: usize, s: &Spread, b: &[u8; Block::BYTES]) -> Report
    requires ready { Ready q t.old }
    requires few { format.used_in b.now ≤ kind.commands }
    ensures value { result ≡ reported (picture t.old) (format.used_in b.now) (format.used_bytes b.now) }
    ensures t_after { t.new ≡ draw (rule.next_all (picture t.old) (format.commands_in b.now)) }
{
    let used = used_in(b);
    run::run(t, q, s, &b[..Command::BYTES * used], used as u64)
}

// Two reports, one behind the other.
pub fn both(a: Report, b: Report) -> Report
    requires { BothFit a b }
    ensures { result ≡ both_of a b }
{
    Report {
        stop: b.stop,
        done: a.done + b.done,
        joined: a.joined + b.joined,
        evicted: a.evicted + b.evicted,
        passed: a.passed + b.passed,
        served: a.served + b.served,
        turned: a.turned + b.turned,
        idle: a.idle + b.idle,
    }
}

// The report of no command.
pub fn nothing(stop: Stop) -> Report
    ensures { result ≡ nothing_with stop }
{
    Report {
        stop,
        done: 0,
        joined: 0,
        evicted: 0,
        passed: 0,
        served: 0,
        turned: 0,
        idle: 0,
    }
}

// Replays block after block until one fails a test.
pub fn replay(t: &mut [u32], q: usize, s: &Spread, bytes: &[u8], first: u64) -> Replay
    requires ready { Ready q t.old }
    ensures value { result ≡ replay_from (picture t.old) first bytes.now }
    ensures t_after { t.new ≡ draw (rule.next_all (picture t.old) (replayed first bytes.now)) }
{
    let mut rest = bytes;
    let mut number = first;
    let mut report = nothing(Stop::Ended);
    while !rest.is_empty() {
        match next_block(rest, number) {
            Ok((block, behind)) => {
                report = both(report, carry_out(t, q, s, block));
                rest = behind;
                number += 1;
            }
            Err(refusal) => {
                let stop = Stop::Block(refusal);
                return Replay {
                    blocks: number - first,
                    report: Report { stop, ..report },
                };
            }
        }
    }
    Replay {
        blocks: number - first,
        report,
    }
}
