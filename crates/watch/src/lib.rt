// The day watch: a list and a lent run of bytes in, one byte a day out; and the listing of a list.
#![tactic(auto)]

mod span;
mod table;

ghost use Rattle.std.specs.Prelude.{◌≡◌, ◌≤◌, length};
ghost use Rattle.rules.specs.Answer.{fitted};
ghost use Rattle.answers.specs.Answered.{Answered};
ghost use Rattle.days.specs.Places.{days_left};
ghost use Rattle.writing.specs.Written.{written};
ghost use Rattle.watch.specs.Moves.{moves_in, moves};
ghost use Rattle.watch.specs.Filling.{spans_in, Countable};

use answers::Answer;
use days::DayList;
use rules::refusal::Rule;
use span::{Close, NONE, WINDOW, byte_of, shift};

// Fills the run, day after day. The last six days are kept, newest first.
fn fill(list: DayList, spans: &mut [u8])
    requires { length (days_left list.days) ≤ length spans.old }
    ensures { spans.new ≡ written 0 (spans_in list.entry.metal (days_left list.entry.days)) spans.old }
{
    let mut window = [NONE; WINDOW];
    for (i, day) in list.days.enumerate() {
        let Ok(day) = day else {
            return;
        };
        shift(
            &mut window,
            Close {
                price: day.price,
                interest: day.interest,
            },
        );
        spans[i] = byte_of(list.metal, &window, i + 1);
    }
}

// 11, or the bytes of the days in the first places of the run.
fn show(list: DayList, spans: &mut [u8]) -> Answer
    requires { Countable (days_left list.days) list.count }
    ensures { Answered (fitted (length spans.old) (spans_in list.entry.metal (days_left list.entry.days))) result spans.old spans.new }
{
    let count = list.count;
    if spans.len() < count {
        return Answer::refused(Rule::NoRoom.number(), count);
    }
    fill(list, spans);
    Answer::accepted(count)
}

// A list that has so many line feeds in all, and a run: the answer, and a byte for each day in the first places of the run where the list is
// accepted.
pub fn moves_in(s: &[u8], total: usize, spans: &mut [u8]) -> Answer
    ensures { Answered (moves_in total s.now (length spans.old)) result spans.old spans.new }
{
    match days::judge(s, total, false) {
        Ok(list) => show(list, spans),
        Err(refusal) => Answer::refused(refusal.rule.number(), refusal.place),
    }
}

// A list and a run.
pub fn moves(s: &[u8], spans: &mut [u8]) -> Answer
    ensures { Answered (moves s.now (length spans.old)) result spans.old spans.new }
{
    moves_in(s, days::count_feeds(s), spans)
}
