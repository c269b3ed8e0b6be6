// The figure at the start of bytes, with the decimals that it has. Its digits tell where it ends, so that no byte is passed twice; whether it
// may end there, who asks looks.
ghost use Rattle.std.specs.Prelude.{◌≡◌, ◌+◌, ◌^◌, ◌<◌, ◌≤◌, length};
ghost use Rattle.figures.specs.Starts.{two_alone, behind, start_of, before_blank, front_of};

use crate::number::{Digits, MOST_DIGITS, may_be_whole, read_run};
use crate::two::two_at;

// All its digits as one number, how many of them stand behind a point, and the place after it.
#[derive(Clone, Copy)]
pub enum Start {
    Ends {
        number: u64,
        decimals: usize,
        end: usize,
    },
    Other,
}

// What follows the number n of `size` digits: a point and digits, or anything else, which is no more of the figure.
fn read_behind(v: &[u8], n: u64, size: usize) -> Start
    requires { (n < 10 ^ size) × (size + length v.now ≤ 16) }
    ensures { result ≡ behind size n v.now }
{
    if v.len() == 0 {
        return Start::Ends {
            number: n,
            decimals: 0,
            end: size,
        };
    }
    if v[0] != b'.' {
        return Start::Ends {
            number: n,
            decimals: 0,
            end: size,
        };
    }
    let run = read_run(&v[1..], n);
    if run.size == 0 {
        return Start::Other;
    }
    if MOST_DIGITS < size + run.size {
        return Start::Other;
    }
    Start::Ends {
        number: run.number,
        decimals: run.size,
        end: size + 1 + run.size,
    }
}

pub fn read_start(v: &[u8]) -> Start
    requires { length v.now ≤ 16 }
    ensures { result ≡ start_of v.now }
{
    let run = read_run(v, 0);
    let size = run.size;
    if !may_be_whole(&v[..size]) {
        return Start::Other;
    }
    read_behind(&v[size..], run.number, size)
}

// A point, two digits and a blank: the number of the digits.
fn two_alone(v: &[u8]) -> Digits
    ensures { result ≡ two_alone v.now }
{
    if v.len() < 4 {
        return Digits::Other;
    }
    if v[3] != b' ' {
        return Digits::Other;
    }
    if v[0] != b'.' {
        return Digits::Other;
    }
    let two = two_at(v, 1);
    if 99 < two {
        return Digits::Other;
    }
    Digits::Number(two)
}

// A figure at the start of v, where a blank follows it.
fn before_blank(v: &[u8], start: Start) -> Start
    ensures { result ≡ before_blank v.now start }
{
    let Start::Ends {
        number,
        decimals,
        end,
    } = start
    else {
        return Start::Other;
    };
    if v.len() <= end {
        return Start::Other;
    }
    if v[end] != b' ' {
        return Start::Other;
    }
    Start::Ends {
        number,
        decimals,
        end,
    }
}

// The figure at the start of v, and a blank after it. Most prices have two decimals: those are read without a loop.
pub fn read_front(v: &[u8]) -> Start
    requires { length v.now ≤ 16 }
    ensures { result ≡ front_of v.now }
{
    let run = read_run(v, 0);
    let size = run.size;
    if !may_be_whole(&v[..size]) {
        return Start::Other;
    }
    if size + 2 <= MOST_DIGITS {
        if let Digits::Number(two) = two_alone(&v[size..]) {
            return Start::Ends {
                number: run.number * 100 + two,
                decimals: 2,
                end: size + 3,
            };
        }
    }
    before_blank(v, read_behind(&v[size..], run.number, size))
}
