// Bytes with one byte in another's place: a figure in a sheet's mark and in a book's.
ghost use Rattle.std.specs.Prelude.{◌≡◌, ℕ, ◌<◌, map};
ghost use Rattle.writing.specs.Written.{Room, Wrote};
ghost use Rattle.sheets.specs.Mark.{respelt, respelled, in_book, stands_in};

pub fn respelt(byte: u8, from: u8, to: u8) -> u8
    ensures { result ≡ respelt from to byte }
{
    if byte == from { to } else { byte }
}

// The bytes s, each as `to` has it.
pub fn put_each<F: Fn(u8) -> u8>(out: &mut [u8], at: usize, s: &[u8], to: F) -> usize
    requires room { Room at s.now out.old }
    requires callable { F.IsAlwaysCallable to }
    ensures { (f : ℕ → ℕ) → ((x y : ℕ) → x < 256 → F.post to x y → y ≡ f x) → Wrote at (map f s.now) out.old out.new result }
{
    for (i, byte) in s.iter().enumerate() {
        out[at + i] = to(*byte);
    }
    at + s.len()
}

// The bytes s, written so.
pub fn put_respelled(out: &mut [u8], at: usize, s: &[u8], from: u8, to: u8) -> usize
    requires { Room at s.now out.old }
    ensures { Wrote at (respelled from to s.now) out.old out.new result }
{
    put_each(out, at, s, |byte| respelt(byte, from, to))
}

// Parts of a sheet side by side: every one of the sheet's own mark becomes a point, and each semicolon a blank.
pub fn put_parts(out: &mut [u8], at: usize, s: &[u8], mark: u8) -> usize
    requires { Room at s.now out.old }
    ensures { Wrote at (respelled 59 32 (in_book mark s.now)) out.old out.new result }
{
    put_each(out, at, s, |byte| {
        respelt(respelt(byte, mark, b'.'), b';', b' ')
    })
}

// Whether a byte stands among some. All of them are looked at: the compiler then takes many at a time.
pub fn stands_in(byte: u8, s: &[u8]) -> bool
    ensures { result ≡ stands_in byte s.now }
{
    let mut found = false;
    for other in s {
        found |= *other == byte;
    }
    found
}
