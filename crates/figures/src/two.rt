// Two digits at a place.
ghost use Rattle.std.specs.Prelude.{◌≡◌, ◌+◌, ◌<◌, [], ◌∷◌, length};
ghost use Rattle.figures.specs.Two.{DigitsAt, TwoOf, bytes_at, two_at};

use crate::number::digit_of;

// 48 * 10 + 48, for the bytes of 00.
const ZEROS: u64 = 528;

// More than 99 where one of two bytes is no digit: with a digit behind it, no other first byte than a digit leaves less. So the first is not
// tested, and LLVM chooses without a branch.
fn two_by(tens: u8, ones: u8) -> u64
    ensures { TwoOf (tens ∷ ones ∷ []) result }
{
    if 9 < digit_of(ones) {
        return 100;
    }
    std::num::wrapping_sub_u64(tens as u64 * 10 + ones as u64, ZEROS)
}

pub fn two_at(v: &[u8], i: usize) -> u64
    requires { i + 1 < length v.now }
    ensures { TwoOf (bytes_at v.now i) result }
{
    two_by(v[i], v[i + 1])
}

// Of bytes that are known to be digits.
pub fn two_of(v: &[u8], i: usize) -> u64
    requires { DigitsAt v.now i }
    ensures { result ≡ two_at v.now i }
{
    let tens = v[i] as u64 - b'0' as u64;
    let ones = v[i + 1] as u64 - b'0' as u64;
    tens * 10 + ones
}
