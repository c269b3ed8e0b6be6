// The digits of a figure, read over each byte once.
ghost use Rattle.std.specs.Prelude.{◌≡◌, ◌-◌, ◌^◌, ◌<◌, ◌≤◌, length};
ghost use Rattle.figures.specs.Numbers.{DigitOf, run, run_number, may_be_whole};

// No figure has more.
pub const MOST_DIGITS: usize = 7;

// What digits write.
#[derive(Clone, Copy)]
pub enum Digits {
    Number(u64),
    Other,
}

// The digits at the start of bytes: how many they are, and the number that they write after another.
#[derive(Clone, Copy)]
pub struct Run {
    pub size: usize,
    pub number: u64,
}

// The digit that a byte writes, and more than 9 where it writes none.
pub fn digit_of(x: u8) -> u64
    ensures { DigitOf x result }
{
    std::num::wrapping_sub_u64(x as u64, b'0' as u64)
}

// The digits at the start of v, written after the number n.
pub fn read_run(v: &[u8], n: u64) -> Run
    requires { (length v.now ≤ 19) × (n < 10 ^ (19 - length v.now)) }
    ensures { (result.size ≡ run v.now) × (result.number ≡ run_number n v.now) }
{
    let mut number = n;
    let mut i = 0;
    while i < v.len() {
        let digit = digit_of(v[i]);
        if 9 < digit {
            return Run { size: i, number };
        }
        number = number * 10 + digit;
        i += 1;
    }
    Run { size: i, number }
}

// The same of digits that are known to end before v does: its end is not looked for.
pub fn read_inside(v: &[u8], n: u64) -> Run
    requires { (run v.now < length v.now) × (run v.now ≤ 19) × (n < 10 ^ (19 - run v.now)) }
    ensures { (result.size ≡ run v.now) × (result.number ≡ run_number n v.now) }
{
    let mut number = n;
    let mut i = 0;
    loop {
        let digit = digit_of(v[i]);
        if 9 < digit {
            return Run { size: i, number };
        }
        number = number * 10 + digit;
        i += 1;
    }
}

// As many bytes as there may be digits before a point, without a leading zero.
pub fn may_be_whole(v: &[u8]) -> bool
    ensures { result ≡ may_be_whole v.now }
{
    let size = v.len();
    if size == 0 {
        return false;
    }
    if MOST_DIGITS < size {
        return false;
    }
    if v[0] == b'0' {
        if 1 < size {
            return false;
        }
    }
    true
}
