// One line: a day, or the rule that it breaks.
ghost use Rattle.std.specs.Prelude.{◌≡◌, cond, ◌||◌, Some, None, Ok};
ghost use Rattle.rules.specs.Figures.{up_to, after, figure_of};
ghost use Rattle.days.specs.Parts.{may_be_interest};
ghost use Rattle.days.specs.Day.{part, interest_of, may_mark, marks, mark_of, judged_day, limit_of, tail_of, long_of, short_of, day_of};

use crate::part::first_at;
use crate::refusal::ListRule;
use crate::{Day, Mark};
use figures::{RATE, read_figure};
use rules::{Fen, Figure, Form, Lots, Rate};

// Open interest has at most so many digits, more than any figure of a book.
const MOST_DIGITS: usize = 10;

// As a price of a book with two decimals, or 0.00.
const SETTLEMENT: Form = Form {
    decimals: 2,
    least: 0,
    most: 9_999_999,
};

// The number that a figure writes.
fn number_in(v: &[u8], form: Form) -> Result<u64, ListRule>
    ensures { result ≡ part (figure_of form v.now) Ok }
{
    match read_figure(v, form) {
        Figure::Value(number) => Ok(number),
        Figure::Comma | Figure::Malformed => Err(ListRule::NoDay),
    }
}

// As many bytes as open interest may have digits, without a leading zero.
fn may_be_interest(v: &[u8]) -> bool
    ensures { result ≡ may_be_interest v.now }
{
    match v {
        [] => false,
        [_] => true,
        [b'0', ..] => false,
        _ => v.len() <= MOST_DIGITS,
    }
}

// The number that the digits of open interest write.
// Stays: a reader of its own, since `figures::read_written` promises that more than seven digits are no figure, and figures lends no other.
fn read_interest(v: &[u8]) -> Result<u64, ListRule>
    ensures { result ≡ part (interest_of v.now) Ok }
{
    if !may_be_interest(v) {
        return Err(ListRule::NoDay);
    }
    let mut number = 0;
    for x in v {
        if !x.is_ascii_digit() {
            return Err(ListRule::NoDay);
        }
        number = number * 10 + u64::from(*x - b'0');
    }
    Ok(number)
}

// The bytes up to the first blank, and those behind it.
fn cut(v: &[u8]) -> (&[u8], &[u8])
    ensures front { result.0.now ≡ up_to " " v.now }
    ensures behind { result.1.now ≡ after " " v.now }
{
    match first_at(v, b' ') {
        Some(at) => (&v[..at], &v[at + 1..]),
        None => (v, &[]),
    }
}

// A byte that may stand as a mark: one of them, or another letter.
fn may_mark(x: u8) -> bool
    ensures { result ≡ may_mark x }
{
    x == b'-' || x.is_ascii_alphabetic()
}

fn mark_of(x: u8) -> Option<Mark>
    ensures { result ≡ cond (marks x) (Some (mark_of x)) None }
{
    match x {
        b'-' => Some(Mark::Unlocked),
        b'U' => Some(Mark::Up),
        b'D' => Some(Mark::Down),
        _ => None,
    }
}

// A line that is of its form: 31, 32, or a day.
#[tactic(auto, unfolding(crate::specs::Day::judged_day))]
fn judge_day(price: u64, interest: u64, x: u8, limit: Option<Rate>) -> Result<Day, ListRule>
    ensures { result ≡ judged_day price interest x limit }
{
    if price == 0 || interest == 0 {
        return Err(ListRule::Zero);
    }
    let mark = mark_of(x).ok_or(ListRule::OtherMark)?;
    Ok(Day {
        price: Fen(price),
        interest: Lots(interest),
        mark,
        limit,
    })
}

// The price limit, behind all else.
#[tactic(auto, using(crate::proofs::Words::same_tested), unfolding(crate::specs::Day::limit_of))]
fn read_limit(v: &[u8], price: u64, interest: u64, x: u8) -> Result<Day, ListRule>
    ensures { result ≡ limit_of price interest x v.now }
{
    let limit = if v == b"-".as_slice() {
        None
    } else {
        Some(Rate(number_in(v, RATE)?))
    };
    judge_day(price, interest, x, limit)
}

// A mark and a price limit.
#[tactic(auto, unfolding(crate::specs::Day::tail_of))]
fn read_tail(v: &[u8], price: u64, interest: u64) -> Result<Day, ListRule>
    ensures { result ≡ tail_of price interest v.now }
{
    let (mark, limit) = cut(v);
    let [x] = mark else {
        return Err(ListRule::NoDay);
    };
    if !may_mark(*x) {
        return Err(ListRule::NoDay);
    }
    read_limit(limit, price, interest, *x)
}

// Open interest, a mark and a price limit.
#[tactic(auto, unfolding(crate::specs::Day::long_of))]
fn read_long(v: &[u8], price: u64) -> Result<Day, ListRule>
    ensures { result ≡ long_of price v.now }
{
    let (interest, tail) = cut(v);
    read_tail(tail, price, read_interest(interest)?)
}

// Open interest alone.
#[tactic(auto, unfolding(crate::specs::Day::short_of))]
fn read_short(v: &[u8], price: u64) -> Result<Day, ListRule>
    ensures { result ≡ short_of price v.now }
{
    judge_day(price, read_interest(v)?, b'-', None)
}

// A line without its line feed, in the longer form or in the short one.
#[tactic(auto, unfolding(crate::specs::Day::day_of))]
pub fn read_day(v: &[u8], long: bool) -> Result<Day, ListRule>
    ensures { result ≡ day_of long v.now }
{
    let (price, rest) = cut(v);
    let price = number_in(price, SETTLEMENT)?;
    if long {
        read_long(rest, price)
    } else {
        read_short(rest, price)
    }
}
