// A step as one number, its rung: the kind in the low byte, and the days running above it.
ghost use Rattle.std.specs.Prelude.{◌≡◌, ◌≤◌};
ghost use Rattle.locks.specs.Ladder.{running};
ghost use Rattle.locks.specs.Listing.{kind_of, rung_of};
ghost use Rattle.locks.specs.Rungs.{step_at};

use crate::lock::running;
use crate::{Raise, Step};

// A low byte has so many values.
pub const KINDS: u64 = 256;

// Stays: the kinds are numbers of the C interface, and a match reads them both ways; an enum of them would need a third match.
const NOT_LOCKED: u64 = 0;

const FIRST_HOLDS: u64 = 1;

const FIRST_FAILS: u64 = 2;

const FIRST_NO_DAY: u64 = 3;

const FIRST_NO_LIMIT: u64 = 4;

const FIRST_NO_NEXT_LIMIT: u64 = 5;

const SAME: u64 = 6;

const REVERSE: u64 = 7;

fn kind_of(step: Step) -> u64
    ensures { result ≡ kind_of step }
{
    match step {
        Step::NotLocked => NOT_LOCKED,
        Step::First(Raise::Holds) => FIRST_HOLDS,
        Step::First(Raise::Fails) => FIRST_FAILS,
        Step::First(Raise::NoDay) => FIRST_NO_DAY,
        Step::First(Raise::NoLimit) => FIRST_NO_LIMIT,
        Step::First(Raise::NoNextLimit) => FIRST_NO_NEXT_LIMIT,
        Step::Same(_) => SAME,
        Step::Reverse => REVERSE,
    }
}

pub fn rung_of(step: Step) -> u64
    requires { running step ≤ 2000 }
    ensures { result ≡ rung_of step }
{
    kind_of(step) + KINDS * running(step)
}

// The step of a kind, with so many days running.
pub fn step_at(kind: u64, days: u64) -> Step
    ensures { result ≡ step_at kind days }
{
    match kind {
        FIRST_HOLDS => Step::First(Raise::Holds),
        FIRST_FAILS => Step::First(Raise::Fails),
        FIRST_NO_DAY => Step::First(Raise::NoDay),
        FIRST_NO_LIMIT => Step::First(Raise::NoLimit),
        FIRST_NO_NEXT_LIMIT => Step::First(Raise::NoNextLimit),
        SAME => Step::Same(days),
        REVERSE => Step::Reverse,
        _ => Step::NotLocked,
    }
}
