// Customer codes as numbers: equal where the codes are the same, and in the order of their bytes.
#![tactic(auto)]

ghost use Rattle.std.specs.Prelude.{◌≡◌, cond, ◌-◌, ◌^◌, ◌≤◌, length, take};
ghost use Rattle.laws.specs.Keys.{digit_of};
ghost use Rattle.codes.specs.Codes.{code_of, given_in, mark_of, Marked};

#[derive(Clone, Copy)]
pub enum Code {
    Key(u64),
    Malformed,
}

// How many places there are for marks.
pub const MARKS: usize = 1_024;

// The first where it is a number, and the second where it is a letter.
fn either(number: bool, x: u8, y: u8) -> u8
    ensures { result ≡ cond number x y }
{
    if number { x } else { y }
}

// The bounds and the sum are chosen with no branch where a number and a letter differ, since a code mixes them.
fn digit(x: u8) -> u64
    ensures { result ≡ digit_of x }
{
    let number = x < b'A';
    let least = either(number, b'0', b'A');
    if x < least {
        return 0;
    }
    let most = either(number, b'9', b'Z');
    if most < x {
        return 0;
    }
    let none = either(number, 47, 54);
    (x - none) as u64
}

// What a number of n digits is worth in 12 places, where the rest has none. Chosen, not looked up: an array would be put on the stack anew for
// each code.
fn padding(n: usize) -> u64
    requires { n ≤ 12 }
    ensures { result ≡ 37 ^ (12 - n) }
{
    match n {
        0 => 6_582_952_005_840_035_281,
        1 => 177_917_621_779_460_413,
        2 => 4_808_584_372_417_849,
        3 => 129_961_739_795_077,
        4 => 3_512_479_453_921,
        5 => 94_931_877_133,
        6 => 2_565_726_409,
        7 => 69_343_957,
        8 => 1_874_161,
        9 => 50_653,
        10 => 1_369,
        11 => 37,
        _ => 1,
    }
}

pub fn read_code(v: &[u8]) -> Code
    ensures { result ≡ code_of v.now }
{
    let n = v.len();
    if n == 0 {
        return Code::Malformed;
    }
    if rules::LONGEST_CODE < n {
        return Code::Malformed;
    }
    let mut key: u64 = 0;
    let mut i = 0;
    while i < n {
        let d = digit(v[i]);
        if d == 0 {
            return Code::Malformed;
        }
        key = key * 37 + d;
        i += 1;
    }
    Code::Key(key * padding(n))
}

// Whether this key is among the first `count`. No branch in the loop: the keys of a sound book differ, so all are looked at.
pub fn given(keys: &[u64], count: usize, key: u64) -> bool
    requires { count ≤ length keys.now }
    ensures { result ≡ given_in (take count keys.now) key }
{
    let mut found = false;
    let mut passed = 0;
    while passed < count {
        found = found | (keys[passed] == key);
        passed += 1;
    }
    found
}

// Where a key's mark stands. 1,021 is prime: codes that are numbered in a row seldom share a place, as they do modulo 1,024.
pub fn mark_of(key: u64) -> usize
    ensures { result ≡ mark_of key }
{
    (key % 1_021) as usize
}

// Whether this key is among the first `count`, which all have their marks: the keys are looked through only where its place is marked.
pub fn known(keys: &[u64], marks: &[u8; MARKS], count: usize, key: u64) -> bool
    requires fact_1 { count ≤ length keys.now }
    requires fact_2 { Marked keys.now marks.now count }
    ensures { result ≡ given_in (take count keys.now) key }
{
    let mark = mark_of(key);
    if marks[mark] == 0 {
        return false;
    }
    given(keys, count, key)
}
