// "Refusal numbers": the rules that a book can break, in the order of their numbers, and a name for the number of none.
ghost use Rattle.std.specs.Prelude.{◌≡◌};
ghost use Rattle.rules.specs.Refusal.{number_of};

// What the number of an accepted book is.
pub const ACCEPTED: u64 = 0;

// A rule that is broken.
#[derive(Clone, Copy, Debug, PartialEq, Eq)]
pub enum Rule {
    TooLong = 1,
    CutShort,
    Misplaced,
    Comma,
    Malformed,
    // U is not greater than V.
    Edges,
    GivenBefore,
    Overdrawn,
    Uncovered,
    TooMany,
    NoRoom,
    // A trade's price is too far from the settlement price.
    Astray,
    SeatTwice,
}

impl Rule {
    // The number that the table of refusals gives it.
    pub fn number(self) -> u64
        ensures { result ≡ number_of self }
    {
        self as u64
    }
}

pub const TOO_LONG: u64 = 1;

pub const CUT_SHORT: u64 = 2;

pub const MISPLACED: u64 = 3;

pub const COMMA: u64 = 4;

pub const MALFORMED: u64 = 5;

// U is not greater than V.
pub const EDGES: u64 = 6;

pub const GIVEN_BEFORE: u64 = 7;

pub const OVERDRAWN: u64 = 8;

pub const UNCOVERED: u64 = 9;

pub const TOO_MANY: u64 = 10;

pub const NO_ROOM: u64 = 11;

// A trade's price is too far from the settlement price.
pub const ASTRAY: u64 = 12;

pub const SEAT_TWICE: u64 = 13;
