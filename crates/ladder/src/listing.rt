// The listing of an accepted list, from the rungs of its days.
ghost use Rattle.std.specs.Prelude.{map};
ghost use Rattle.writing.specs.Written.{Room, Wrote};
ghost use Rattle.locks.specs.Listing.{raise_word, step_words, day_line, listed};
ghost use Rattle.locks.specs.Rungs.{step_of};

use locks::{Raise, Step, step_of};
use printing::put_worded;
use writing::{put_byte, put_bytes, put_digits};

// What the check of a first lock came to.
fn put_raise(out: &mut [u8], at: usize, raise: Raise) -> usize
    requires { Room at (raise_word raise) out.old }
    ensures { Wrote at (raise_word raise) out.old out.new result }
{
    match raise {
        Raise::Holds => put_bytes(out, at, b"holds"),
        Raise::Fails => put_bytes(out, at, b"fails"),
        Raise::NoDay => put_bytes(out, at, b"no-day"),
        Raise::NoLimit => put_bytes(out, at, b"no-limit"),
        Raise::NoNextLimit => put_bytes(out, at, b"no-next-limit"),
    }
}

fn put_step(out: &mut [u8], at: usize, step: Step) -> usize
    requires { Room at (step_words step) out.old }
    ensures { Wrote at (step_words step) out.old out.new result }
{
    match step {
        Step::NotLocked => put_bytes(out, at, b" none"),
        Step::First(raise) => {
            let word = put_bytes(out, at, b" first ");
            put_raise(out, word, raise)
        }
        Step::Same(days) => put_worded(out, at, b" same ", days),
        Step::Reverse => put_bytes(out, at, b" reverse"),
    }
}

// The line of a day.
fn put_day(out: &mut [u8], at: usize, day: u64, step: Step) -> usize
    requires { Room at (day_line day step) out.old }
    ensures { Wrote at (day_line day step) out.old out.new result }
{
    let words = put_digits(out, at, day);
    let end = put_step(out, words, step);
    put_byte(out, end, b'\n')
}

// How many days there are, and a line for each.
pub fn put_days(out: &mut [u8], rungs: &[u64]) -> usize
    requires { Room 0 (listed (map step_of rungs.now)) out.old }
    ensures { Wrote 0 (listed (map step_of rungs.now)) out.old out.new result }
{
    let count = put_worded(out, 0, b"days ", rungs.len() as u64);
    let mut at = put_byte(out, count, b'\n');
    for (i, rung) in rungs.iter().enumerate() {
        at = put_day(out, at, i as u64 + 1, step_of(*rung));
    }
    at
}
