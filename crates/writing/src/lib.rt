// Bytes and digits, written into a lent buffer. Each `put` writes at a place, answers the place behind what it wrote, and leaves
// every other byte as it was.
#![tactic(auto)]

ghost use Rattle.std.specs.Prelude.{◌≡◌, [], ◌∷◌, ◌≤◌, length};
ghost use Rattle.rules.specs.Report.{digits, letter};
ghost use Rattle.writing.specs.Written.{Room, Wrote};

use rules::Standing;

#[tactic(auto, using(crate::specs::Written::written_one))]
pub fn put_byte(out: &mut [u8], at: usize, b: u8) -> usize
    requires { Room at (b ∷ []) out.old }
    ensures { Wrote at (b ∷ []) out.old out.new result }
{
    out[at] = b;
    at + 1
}

pub fn put_three(out: &mut [u8], at: usize, a: u8, b: u8, c: u8) -> usize
    requires { Room at (a ∷ b ∷ c ∷ []) out.old }
    ensures { Wrote at (a ∷ b ∷ c ∷ []) out.old out.new result }
{
    let second = put_byte(out, at, a);
    let third = put_byte(out, second, b);
    put_byte(out, third, c)
}

// Byte after byte: `copy_from_slice` would have an archive for C call `memmove` too.
pub fn put_bytes(out: &mut [u8], at: usize, s: &[u8]) -> usize
    requires { Room at s.now out.old }
    ensures { Wrote at s.now out.old out.new result }
{
    for (i, byte) in s.iter().enumerate() {
        out[at + i] = *byte;
    }
    at + s.len()
}

pub fn digits_length(n: u64) -> usize
    ensures { (result ≡ length (digits n)) × (result ≤ 20) }
{
    let mut rest = n;
    let mut count = 1;
    while rest >= 10 {
        rest /= 10;
        count += 1;
    }
    count
}

// The digits of n, of which there are `count`, from the last to the first: their number is found once, and not for each use.
pub fn fill_digits(out: &mut [u8], at: usize, count: usize, n: u64) -> usize
    requires count_value { count ≡ length (digits n) }
    requires room { Room at (digits n) out.old }
    ensures { Wrote at (digits n) out.old out.new result }
{
    let end = at + count;
    let mut rest = n;
    for i in (at..end).rev() {
        out[i] = b'0' + (rest % 10) as u8;
        rest /= 10;
    }
    end
}

pub fn put_digits(out: &mut [u8], at: usize, n: u64) -> usize
    requires { Room at (digits n) out.old }
    ensures { Wrote at (digits n) out.old out.new result }
{
    fill_digits(out, at, digits_length(n), n)
}

pub fn letter_of(standing: Standing) -> u8
    ensures { result ≡ letter standing }
{
    match standing {
        Standing::Pending => b'P',
        Standing::Tier1 => b'1',
        Standing::Tier2 => b'2',
        Standing::Tier3 => b'3',
        Standing::Neither => b'N',
    }
}
