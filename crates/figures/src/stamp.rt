// When a trade was made: a blank, the day as eight digits, a blank, and the time as four.
ghost use Rattle.std.specs.Prelude.{◌≡◌, ◌+◌, ◌*◌, ◌≤◌, length};
ghost use Rattle.rules.specs.Stamp.{days_in, is_date, minutes, stamp_number};
ghost use Rattle.figures.specs.Stamps.{day_by, stamp_in};

use crate::number::Digits;
use crate::two::two_at;

// ` 20250115 2031`
pub const SIZE: usize = 14;

fn days_in(y: u64, month: u64) -> u64
    requires { y ≤ 99 }
    ensures { result ≡ days_in (2_000 + y) month }
{
    if month == 2 {
        if y % 4 == 0 {
            return 29;
        }
        return 28;
    }
    if month == 4 {
        return 30;
    }
    if month == 6 {
        return 30;
    }
    if month == 9 {
        return 30;
    }
    if month == 11 {
        return 30;
    }
    31
}

// The days that every month has.
const SHORTEST: u64 = 28;

// Of the years 2000 to 2099, of which every fourth is a leap year.
fn is_date(y: u64, month: u64, day: u64) -> bool
    ensures { result ≡ is_date (2_000 + y) month day }
{
    if 99 < y {
        return false;
    }
    if month < 1 {
        return false;
    }
    if 12 < month {
        return false;
    }
    if day < 1 {
        return false;
    }
    if day <= SHORTEST {
        return true;
    }
    day <= days_in(y, month)
}

// 19:50 is the first minute of a trading day: to add 250 is to go back 1,190 of the day's 1,440.
fn minutes_at(hour: u64, minute: u64) -> u64
    requires { (hour ≤ 23) × (minute ≤ 59) }
    ensures { result ≡ minutes (hour * 100 + minute) }
{
    let since = hour * 60 + minute + 250;
    if since < 1_440 {
        return since;
    }
    since - 1_440
}

// The stamp of a day of the years 2000 to 2099, an hour and a minute.
pub fn stamp_from(y: u64, month: u64, day: u64, hour: u64, minute: u64) -> u64
    requires { (y ≤ 99) × (month ≤ 99) × (day ≤ 99) × (hour ≤ 23) × (minute ≤ 59) }
    ensures { result ≡ stamp_number (day_by y month day) (hour * 100 + minute) }
{
    (20_000_000 + y * 10_000 + month * 100 + day) * 1_440 + minutes_at(hour, minute)
}

// The last bytes of a trade's value. Where two of them should be digits and are not, the tests refuse what stands for them.
pub fn read_stamp(v: &[u8]) -> Digits
    requires { length v.now ≡ 14 }
    ensures { result ≡ stamp_in v.now }
{
    if v[0] != b' ' {
        return Digits::Other;
    }
    if v[9] != b' ' {
        return Digits::Other;
    }
    if v[1] != b'2' {
        return Digits::Other;
    }
    if v[2] != b'0' {
        return Digits::Other;
    }
    let y = two_at(v, 3);
    let month = two_at(v, 5);
    let day = two_at(v, 7);
    if !is_date(y, month, day) {
        return Digits::Other;
    }
    let hour = two_at(v, 10);
    if 23 < hour {
        return Digits::Other;
    }
    let minute = two_at(v, 12);
    if 59 < minute {
        return Digits::Other;
    }
    Digits::Number(stamp_from(y, month, day, hour, minute))
}
