// The lock ladder: a list and a lent run in, one step a day out.
#![tactic(auto)]

mod lock;
mod rung;

ghost use Rattle.std.specs.Prelude.{◌≡◌, ◌≤◌, length};
ghost use Rattle.rules.specs.Answer.{fitted};
ghost use Rattle.answers.specs.Answered.{Answered};
ghost use Rattle.days.specs.Lines.{feeds};
ghost use Rattle.days.specs.Places.{days_left};
ghost use Rattle.writing.specs.Written.{written};
ghost use Rattle.locks.specs.Listing.{ladder_in, ladder};
ghost use Rattle.locks.specs.Rungs.{step_of};
ghost use Rattle.locks.specs.Climbing.{rungs_in, Climbable, Countable};

use answers::Answer;
use days::{DayList, Mark};
use lock::{raise_at, running, step_by};
use rules::refusal::Rule;
use rung::{KINDS, rung_of, step_at};

// What Article 18's check of a first lock came to: the raise holds or fails; or no day follows, or the limit of the locked day or of the next
// day is missing.
#[derive(Clone, Copy, Debug, PartialEq, Eq)]
pub enum Raise {
    Holds,
    Fails,
    NoDay,
    NoLimit,
    NoNextLimit,
}

// A day's step: not locked; a first lock, with what its check came to; a lock in the same direction as the day before, with the days running; or
// one in the other direction.
#[derive(Clone, Copy, Debug, PartialEq, Eq)]
pub enum Step {
    NotLocked,
    First(Raise),
    Same(u64),
    Reverse,
}

// Fills the run, day after day: the mark of the day before and the days running on it are kept, and the next day is read ahead.
fn fill(list: DayList, steps: &mut [u64])
    requires { Climbable (days_left list.days) list.count steps.old }
    ensures { steps.new ≡ written 0 (rungs_in (days_left list.entry.days)) steps.old }
{
    let mut before = Mark::Unlocked;
    let mut so_far = 0;
    let mut days = list.days;
    let mut ahead = days.next();
    for i in 0..list.count {
        let Some(Ok(day)) = ahead else {
            return;
        };
        ahead = days.next();
        let step = step_by(before, day.mark, so_far, raise_at(day.limit, ahead));
        steps[i] = rung_of(step);
        before = day.mark;
        so_far = running(step);
    }
}

// 11, or the steps of the days in the first places of the run.
fn show(list: DayList, steps: &mut [u64]) -> Answer
    requires { Countable (days_left list.days) list.count }
    ensures { Answered (fitted (length steps.old) (rungs_in (days_left list.entry.days))) result steps.old steps.new }
{
    let count = list.count;
    if steps.len() < count {
        return Answer::refused(Rule::NoRoom.number(), count);
    }
    fill(list, steps);
    Answer::accepted(count)
}

// A list that has so many line feeds in all, and a run: the answer, and a step for each day in the first places of the run where the list is
// accepted.
pub fn ladder_in(s: &[u8], total: usize, steps: &mut [u64]) -> Answer
    requires { feeds s.now ≤ total }
    ensures { Answered (ladder_in total s.now (length steps.old)) result steps.old steps.new }
{
    match days::judge(s, total, true) {
        Ok(list) => show(list, steps),
        Err(refusal) => Answer::refused(refusal.rule.number(), refusal.place),
    }
}

// A list and a run.
pub fn ladder(s: &[u8], steps: &mut [u64]) -> Answer
    ensures { Answered (ladder s.now (length steps.old)) result steps.old steps.new }
{
    ladder_in(s, days::count_feeds(s), steps)
}

// The step that a rung stands for.
#[tactic(auto, unfolding(crate::specs::Rungs::step_of))]
pub fn step_of(rung: u64) -> Step
    ensures { result ≡ step_of rung }
{
    step_at(rung % KINDS, rung / KINDS)
}
