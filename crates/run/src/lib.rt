// A run of commands on a ready table: the stop rule's tests in their order, and how many commands came to what.
#![tactic(auto)]

ghost use Rattle.std.specs.Prelude.{◌≡◌, ◌≤◌};
ghost use Rattle.rules.specs.Picture.{limits_of, plain};
ghost use Rattle.rules.specs.Commands as commands;
ghost use Rattle.rules.specs.Run as rule;
ghost use Rattle.rules.specs.Draw.{draw};
ghost use Rattle.rules.specs.Sound.{picture};
ghost use Rattle.rules.specs.Ready.{Ready};
ghost use Rattle.command.specs.Bytes.{as_command};
ghost use Rattle.run.specs.Seen.{largest, case_of, place_of, arrive_case, slide_case, serve_case, joined_in, report_on};
ghost use Rattle.run.specs.Runs.{reported};

use answers::{Choice, Report, Request, Stop};
use command::Command;
use spread::Spread;

// What a command came to: the place of its count among the six.
#[derive(Clone, Copy, Debug, PartialEq, Eq)]
enum Case {
    Joined,
    Evicted,
    Turned,
    Passed,
    Served,
    Idle,
}

impl Case {
    const ALL: usize = 6;

    fn place(self) -> usize
        ensures { result ≡ place_of self }
    {
        self as usize
    }
}

// What an arrive came to.
fn of_arrive(choice: Choice) -> Case
    ensures { result ≡ arrive_case choice }
{
    match choice {
        Choice::Joined => Case::Joined,
        Choice::Evicted(_) => Case::Evicted,
        Choice::Turned => Case::Turned,
    }
}

// What a slide came to.
fn of_slide(left: Option<Request>) -> Case
    ensures { result ≡ slide_case left }
{
    match left {
        None => Case::Joined,
        Some(_) => Case::Passed,
    }
}

// What a serve came to: where nobody waits, the command was idle.
fn of_serve(left: Option<Request>) -> Case
    ensures { result ≡ serve_case left }
{
    match left {
        None => Case::Idle,
        Some(_) => Case::Served,
    }
}

// Carries a command out, and tells what it came to.
fn carry_out(t: &mut [u32], q: usize, s: &Spread, command: Command) -> Case
    requires ready { Ready q t.old }
    ensures value { result ≡ case_of (commands.outcome (limits_of (picture t.old)) (plain (picture t.old)) (as_command command)) }
    ensures t_after { t.new ≡ draw (commands.next (picture t.old) (as_command command)) }
{
    match command {
        Command::Arrive(r) => of_arrive(steps::arrive(t, q, s, r.id, r.ticket)),
        Command::Slide(r) => of_slide(steps::slide(t, q, s, r.id, r.ticket)),
        Command::Serve => of_serve(steps::serve(t, q, s)),
    }
}

// The report of a run that stops, having carried out so many commands, which came to what was seen.
fn report(stop: Stop, done: u64, seen: [u64; Case::ALL]) -> Report
    requires { joined_in seen ≤ largest }
    ensures { result ≡ report_on stop done seen }
{
    let [joined, evicted, turned, passed, served, idle] = seen;
    Report {
        stop,
        done,
        joined: joined + evicted + passed,
        evicted,
        passed,
        served,
        turned,
        idle,
    }
}

// Carries out commands until one of the four stops.
pub fn run(t: &mut [u32], q: usize, s: &Spread, bytes: &[u8], budget: u64) -> Report
    requires ready { Ready q t.old }
    ensures value { result ≡ reported (picture t.old) budget bytes.now }
    ensures t_after { t.new ≡ draw (rule.next_all (picture t.old) (rule.carried budget bytes.now)) }
{
    let mut rest = bytes;
    let mut done: u64 = 0;
    let mut seen = [0u64; Case::ALL];
    while !rest.is_empty() {
        if done == budget {
            return report(Stop::Spent, done, seen);
        }
        if rest.len() < Command::BYTES {
            return report(Stop::Cut, done, seen);
        }
        let Some(command) = command::known_at(rest, 0) else {
            return report(Stop::BadCommand, done, seen);
        };
        let k = carry_out(t, q, s, command).place();
        seen[k] += 1;
        done += 1;
        rest = &rest[Command::BYTES..];
    }
    report(Stop::Ended, done, seen)
}
