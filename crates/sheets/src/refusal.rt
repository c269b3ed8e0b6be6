// "Refusals, in the sheet tool only": request [8]. 1 is the book's.
ghost use Rattle.std.specs.Prelude.{◌≡◌};
ghost use Rattle.sheets.specs.Refusal.{number_of};

// A rule that a sheet breaks, or a call.
#[derive(Clone, Copy, Debug, PartialEq, Eq)]
pub enum SheetRule {
    // The sheet has more bytes than the longest book.
    TooLong = 1,
    // No mark line.
    NoMark = 20,
    // The other mark in a price, rate or lots figure.
    OtherMark,
    // A wrong letter, a wrong number of parts or no line feed.
    NoLine,
    // No room for the result.
    NoResult,
}

impl SheetRule {
    // The number that the table of refusals gives it.
    pub fn number(self) -> u64
        ensures { result ≡ number_of self }
    {
        self as u64
    }
}

// Why a sheet makes no book: the rule, and the line; 0 where it is no line's.
#[derive(Clone, Copy, Debug, PartialEq, Eq)]
pub struct Refusal {
    pub rule: SheetRule,
    pub place: usize,
}
