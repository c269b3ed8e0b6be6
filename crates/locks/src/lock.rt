// One day's step, by Articles 17 and 18.
ghost use Rattle.std.specs.Prelude.{◌≡◌, ◌≤◌};
ghost use Rattle.locks.specs.Ladder.{raised, checked, step_by, running};
ghost use Rattle.locks.specs.Climbing.{raise_at};

use crate::{Raise, Step};
use days::refusal::ListRule;
use days::{Day, Mark};
use rules::Rate;

// Three and six percentage points, in thousandths of a percent.
const LEAST_RAISE: u64 = 3_000;

const MOST_RAISE: u64 = 6_000;

// Whether a limit is raised by three to six percentage points.
fn raised(from: u64, to: u64) -> bool
    ensures { result ≡ raised from to }
{
    let Some(raise) = to.checked_sub(from) else {
        return false;
    };
    LEAST_RAISE <= raise && raise <= MOST_RAISE
}

// The check of a first lock, by its limit and that of the next day.
fn check(limit: Option<Rate>, next: Option<Rate>) -> Raise
    ensures { result ≡ checked limit next }
{
    match (limit, next) {
        (None, _) => Raise::NoLimit,
        (Some(_), None) => Raise::NoNextLimit,
        (Some(from), Some(to)) => {
            if raised(from.0, to.0) {
                Raise::Holds
            } else {
                Raise::Fails
            }
        }
    }
}

// The check of a first lock, by its limit and what is read of the next day.
pub fn raise_at(limit: Option<Rate>, ahead: Option<Result<Day, ListRule>>) -> Raise
    ensures { result ≡ raise_at limit ahead }
{
    match ahead {
        Some(Ok(following)) => check(limit, following.limit),
        Some(Err(_)) | None => Raise::NoDay,
    }
}

// The step of a day, by the mark of the day before and its own, the days running on the day before, and what a first lock's check comes to.
pub fn step_by(before: Mark, mark: Mark, days: u64, raise: Raise) -> Step
    requires { days ≤ 2000 }
    ensures { result ≡ step_by before mark days raise }
{
    match (before, mark) {
        (_, Mark::Unlocked) => Step::NotLocked,
        (Mark::Unlocked, _) => Step::First(raise),
        (Mark::Up, Mark::Up) | (Mark::Down, Mark::Down) => Step::Same(days + 1),
        (Mark::Up, Mark::Down) | (Mark::Down, Mark::Up) => Step::Reverse,
    }
}

// The days running.
pub fn running(step: Step) -> u64
    ensures { result ≡ running step }
{
    match step {
        Step::NotLocked => 0,
        Step::First(_) | Step::Reverse => 1,
        Step::Same(days) => days,
    }
}
