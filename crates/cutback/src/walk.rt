// The codes of the seats, one after the other, where they stand: each of its size behind the one before, or each at the front of a line.
ghost use Rattle.std.specs.Prelude.{◌≡◌, ◌||◌, ◌^◌, ◌<◌, [], ◌∷◌, List, ℕ, length, position, MatchOption};
ghost use Rattle.rules.specs.Text.{is};
ghost use Rattle.rules.specs.Opening.{up_to_blank};
ghost use Rattle.reasons.specs.Lines.{first_line};
ghost use Rattle.cutback.specs.Lines.{codes_in, codes_ahead};
ghost use Rattle.cutback.specs.Judge.{again};
ghost use Rattle.cutback.specs.Walk.{kept, Counted};

use codes::Code;
use rules::MOST_SEATS;

// Codes that are taken one after the other; a copy takes the same ones again.
pub trait Codes<'a>: Copy {
    // Those that are left.
    ghost codes: { Self → List (List ℕ) };

    fn next(&mut self) -> Option<&'a [u8]>
        ensures taken { MatchOption result (codes self.old ≡ []) (λ code. codes self.old ≡ code.now ∷ codes self.new) }
        ensures few { length (codes self.old) < 2 ^ 64 };
}

// Codes that stand one behind the other, each of its size.
#[derive(Clone, Copy)]
pub struct BySize<'a> {
    pub text: &'a [u8],
    pub sizes: &'a [u64],
}

impl<'a> Codes<'a> for BySize<'a> {
    ghost codes = { λ s. codes_in s.sizes.now s.text.now };

    // One that runs past the end stands as an empty one, and so do those behind it.
    #[tactic(auto, using(crate::proofs::Places::sizes_long))]
    fn next(&mut self) -> Option<&'a [u8]> {
        let (size, sizes) = self.sizes.split_first()?;
        self.sizes = sizes;
        let text = self.text;
        if (text.len() as u64) < *size {
            self.text = &[];
            return Some(&[]);
        }
        let (code, rest) = text.split_at(*size as usize);
        self.text = rest;
        Some(code)
    }
}

// Codes each of which stands before the first blank of a line.
#[derive(Clone, Copy)]
pub struct ByLine<'a> {
    pub text: &'a [u8],
}

// A byte behind a code at the front of a line.
fn ends_code(byte: u8) -> bool
    ensures { result ≡ (is "\n" byte || is " " byte) }
{
    matches!(byte, b'\n' | b' ')
}

fn first_end(text: &[u8]) -> Option<usize>
    ensures { result ≡ position (λ b. is "\n" b || is " " b) text.now }
{
    text.iter().position(|byte| ends_code(*byte))
}

// Where the code ends that stands at the front of a line.
fn code_end(text: &[u8]) -> usize
    ensures { result ≡ length (up_to_blank (first_line text.now)) }
{
    first_end(text).unwrap_or(text.len())
}

impl<'a> Codes<'a> for ByLine<'a> {
    ghost codes = { λ s. codes_ahead s.text.now };

    fn next(&mut self) -> Option<&'a [u8]> {
        let text = self.text;
        if text.is_empty() {
            return None;
        }
        let end = code_end(text);
        let line = reasons::line_end(text, end);
        self.text = if line < text.len() {
            &text[line + 1..]
        } else {
            &[]
        };
        Some(&text[..end])
    }
}

// Whether a code is among some.
fn stands_again<'a, C: Codes<'a>>(code: &[u8], mut others: C) -> bool
    ensures { result ≡ again code.now (C.codes others) }
{
    while let Some(other) = others.next() {
        if command::is(code, other) {
            return true;
        }
    }
    false
}

// The key of one code more, where it is among the first four.
fn keep(keys: &mut [u64; MOST_SEATS], count: usize, key: u64)
    ensures { keys.new ≡ kept count key keys.old }
{
    if count < MOST_SEATS {
        keys[count] = key;
    }
}

// How many codes there are, and the keys of the first four; none where one is malformed or twice. Each is held against those behind it, so that
// the time grows with the square of their number.
pub fn read_codes<'a, C: Codes<'a>>(mut codes: C, keys: &mut [u64; MOST_SEATS]) -> Option<usize>
    ensures { Counted (C.codes codes) keys.new result }
{
    let mut count = 0;
    while let Some(code) = codes.next() {
        let Code::Key(key) = codes::read_code(code) else {
            return None;
        };
        if stands_again(code, codes) {
            return None;
        }
        keep(keys, count, key);
        count += 1;
    }
    Some(count)
}
