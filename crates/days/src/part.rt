// The parts of a line.
ghost use Rattle.std.specs.Prelude.{◌≡◌, ◌==◌, position};

// Where the first such byte stands.
pub fn first_at(v: &[u8], byte: u8) -> Option<usize>
    ensures { result ≡ position (λ x. x == byte) v.now }
{
    v.iter().position(|x| *x == byte)
}
