// The listing of an accepted list, from the bytes of its days.
ghost use Rattle.std.specs.Prelude.{◌≡◌, ◌≤◌, ◌<◌, length};
ghost use Rattle.writing.specs.Written.{Room, Wrote};
ghost use Rattle.watch.specs.Moves.{is_set, word, kind, day_line, listed};
ghost use Rattle.moves.specs.Sizes.{listing_room};

use printing::put_worded;
use writing::{put_byte, put_bytes, put_digits};

// A bit of a byte, by the power of two that it stands for.
fn is_set(byte: u8, power: u8) -> bool
    requires { 0 < power }
    ensures { result ≡ is_set power byte }
{
    byte / power % 2 == 1
}

// A span that is met: what it is of, and how many days it has.
fn put_span(out: &mut [u8], at: usize, met: bool, name: &[u8], days: u8) -> usize
    requires { Room at (word met name.now days) out.old }
    ensures { Wrote at (word met name.now days) out.old out.new result }
{
    if !met {
        return at;
    }
    let digit = put_bytes(out, at, name);
    put_byte(out, digit, days)
}

// The spans of 3, 4 and 5 days of prices, or of open interest, by the lowest three bits.
fn put_kind(out: &mut [u8], at: usize, name: &[u8], byte: u8) -> usize
    requires { Room at (kind name.now byte) out.old }
    ensures { Wrote at (kind name.now byte) out.old out.new result }
{
    let second = put_span(out, at, is_set(byte, 1), name, b'3');
    let third = put_span(out, second, is_set(byte, 2), name, b'4');
    put_span(out, third, is_set(byte, 4), name, b'5')
}

// The line of a day, which is none where no span is met.
fn put_day(out: &mut [u8], at: usize, day: u64, byte: u8) -> usize
    requires { Room at (day_line day byte) out.old }
    ensures { Wrote at (day_line day byte) out.old out.new result }
{
    if byte == 0 {
        return at;
    }
    let prices = put_digits(out, at, day);
    let interests = put_kind(out, prices, b" price", byte);
    let end = put_kind(out, interests, b" open", byte / 8);
    put_byte(out, end, b'\n')
}

// How many days there are, and the lines of those on which a span is met.
pub fn put_days(out: &mut [u8], bytes: &[u8]) -> usize
    requires bytes_len_bound { length bytes.now ≤ 2000 }
    requires listing_room_in_bounds { listing_room ≤ length out.old }
    ensures { Wrote 0 (listed bytes.now) out.old out.new result }
{
    let count = put_worded(out, 0, b"days ", bytes.len() as u64);
    let mut at = put_byte(out, count, b'\n');
    for (i, byte) in bytes.iter().enumerate() {
        at = put_day(out, at, i as u64 + 1, *byte);
    }
    at
}
