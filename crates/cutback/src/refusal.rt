// The refusal numbers of request [13], in the order in which they are looked for.
ghost use Rattle.std.specs.Prelude.{◌≡◌};
ghost use Rattle.cutback.specs.Judge.{number_of};

// A rule that a call breaks.
#[derive(Clone, Copy, Debug, PartialEq, Eq)]
pub enum CutRule {
    // The type or the metal.
    Unknown = 40,
    BadGrams,
    BadCode,
    BadCount,
    BadLots,
}

impl CutRule {
    // The number that the table of refusals gives it.
    pub fn number(self) -> u64
        ensures { result ≡ number_of self }
    {
        self as u64
    }
}
