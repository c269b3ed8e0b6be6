// The types of the paper: what document 01 and requests [2] to [5] name, and the limits; and "the smaller of", which it says of lots twice. The rules
// themselves are definitions, in specs/.
#![tactic(auto)]

pub mod refusal;
pub mod tag;

ghost use Rattle.std.specs.Prelude.{◌≡◌, min};

// A price. "Prices are in fen, positions in lots and rates in thousandths of a percent": three types, so that an edge
// cannot be handed in as a price. With X 0 all prices of the book are in yuan.
#[derive(Clone, Copy)]
pub struct Fen(pub u64);

#[derive(Clone, Copy)]
pub struct Lots(pub u64);

#[derive(Clone, Copy)]
pub struct Rate(pub u64);

// When a trade was made: a number that orders trading days, and within one day its minutes.
#[derive(Clone, Copy)]
pub struct Stamp(pub u64);

// Why a value is no figure, or no trade.
#[derive(Clone, Copy, Debug, PartialEq, Eq)]
pub enum Fault {
    Comma,
    Malformed,
}

// What a figure says, whoever asks: all its digits as one number, and how many of them stand behind a point; or why it is no figure.
#[derive(Clone, Copy)]
pub enum Written {
    Number { number: u64, decimals: usize },
    Comma,
    Malformed,
}

// What it says to who asks. The number is in the figure's own unit: fen or yuan, lots or thousandths of a percent.
#[derive(Clone, Copy)]
pub enum Figure {
    Value(u64),
    Comma,
    Malformed,
}

// What who asks allows: so many decimals, and the number from `least` to `most`.
#[derive(Clone, Copy)]
pub struct Form {
    pub decimals: usize,
    pub least: u64,
    pub most: u64,
}

// The terms D, X, S, L, U, V: locked at the lower limit, the decimals of every price, the settlement price, the loss edge, the lower edges
// of T1 and T2.
#[derive(Clone, Copy)]
pub struct Terms {
    pub down: bool,
    pub decimals: usize,
    pub settlement: Fen,
    pub loss: Rate,
    pub edge1: Rate,
    pub edge2: Rate,
}

// K, H and Q: lots held long, held short, and unfilled close-out lots at the limit price at market close.
#[derive(Clone, Copy)]
pub struct Position {
    pub long: Lots,
    pub short: Lots,
    pub unfilled: Lots,
}

// An opening trade: bought or sold, its price, its lots and when it was made.
#[derive(Clone, Copy)]
pub struct Trade {
    pub bought: bool,
    pub price: Fen,
    pub lots: Lots,
    pub stamp: Stamp,
}

// What the value of a B or an A says: a trade, and the decimals that its price is written with.
#[derive(Clone, Copy)]
pub enum Opening {
    Made { trade: Trade, decimals: usize },
    Comma,
    Malformed,
}

// P, 1, 2, 3 and N: pending, in a tier, neither.
#[derive(Clone, Copy, Debug, PartialEq, Eq)]
pub enum Standing {
    Pending,
    Tier1,
    Tier2,
    Tier3,
    Neither,
}

pub const LONGEST_BOOK: usize = 60_000;

pub const LONGEST_CODE: usize = 12;

pub const MOST_CUSTOMERS: usize = 256;

pub const MOST_SEATS: usize = 4;

pub fn lesser(a: u64, b: u64) -> u64
    ensures { result ≡ min a b }
{
    a.min(b)
}
