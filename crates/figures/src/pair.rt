// A price, one blank, lots: the value of a trade before its stamp.
ghost use Rattle.std.specs.Prelude.{◌≡◌, ◌≤◌, length};
ghost use Rattle.rules.specs.Figures.{traded_form, figure_of};
ghost use Rattle.figures.specs.Pairs.{lots_of, pair_of};

use crate::number::{Digits, read_run};
use crate::start::{Start, read_front};

// 99999.99 1000000
const LONGEST: usize = 16;

const MOST_LOTS: u64 = 1_000_000;

// The numbers of a price and of lots, and the decimals that the price has.
#[derive(Clone, Copy)]
pub enum Pair {
    Both {
        price: u64,
        decimals: usize,
        lots: u64,
    },
    Other,
}

// Lots in a trade: nothing but digits, of which the first is not 0.
fn read_lots(v: &[u8]) -> Digits
    requires { length v.now ≤ 16 }
    ensures { result ≡ lots_of (figure_of traded_form v.now) }
{
    if v.len() == 0 {
        return Digits::Other;
    }
    if v[0] == b'0' {
        return Digits::Other;
    }
    let run = read_run(v, 0);
    if run.size != v.len() {
        return Digits::Other;
    }
    if MOST_LOTS < run.number {
        return Digits::Other;
    }
    Digits::Number(run.number)
}

// Seven digits write no price above the range.
pub fn read_pair(v: &[u8]) -> Pair
    ensures { result ≡ pair_of v.now }
{
    if LONGEST < v.len() {
        return Pair::Other;
    }
    let Start::Ends {
        number: price,
        decimals,
        end: blank,
    } = read_front(v)
    else {
        return Pair::Other;
    };
    if price == 0 {
        return Pair::Other;
    }
    let Digits::Number(lots) = read_lots(&v[blank + 1..]) else {
        return Pair::Other;
    };
    Pair::Both {
        price,
        decimals,
        lots,
    }
}
