// The host's day record: six totals, brought up to date where they stand by each run. Each stays at its largest value once there.
#![tactic(auto)]

ghost use Rattle.std.specs.Prelude.{◌≡◌};
ghost use Rattle.day.specs.Day.{totals_of, added, after_run};

use answers::{Refusal, Report};
use std::array;

#[derive(Clone, Copy)]
pub struct Day {}

impl Day {
    // How many totals it has: joined, evicted, passed, served, turned away, idle.
    pub const TOTALS: usize = 6;

    // The largest value of a total.
    pub const LARGEST: u64 = u64::MAX;
}

// The totals of a report, as the record has them.
fn totals(r: Report) -> [u64; Day::TOTALS]
    ensures { result ≡ totals_of r }
{
    [r.joined, r.evicted, r.passed, r.served, r.turned, r.idle]
}

// Each total of a record with more.
fn add(day: [u64; Day::TOTALS], more: [u64; Day::TOTALS]) -> [u64; Day::TOTALS]
    ensures { result ≡ added day more }
{
    array::from_fn(|k| day[k].saturating_add(more[k]))
}

// Brings the record up to date where it stands; a run that was refused leaves it.
pub fn bring_up(day: &mut [u64; Day::TOTALS], r: Result<Report, Refusal>)
    ensures { day.new ≡ after_run day.old r }
{
    if let Ok(report) = r {
        *day = add(*day, totals(report));
    }
}
