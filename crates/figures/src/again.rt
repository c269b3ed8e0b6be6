// The parts of a trade that was read before: nothing can be wrong with them, so nothing is looked for.
ghost use Rattle.std.specs.Prelude.{◌≡◌, ℕ, true, length, take, slice_index};
ghost use Rattle.rules.specs.Text.{is};
ghost use Rattle.figures.specs.declared.number.Digits.TheVariants.{Number};
ghost use Rattle.figures.specs.declared.pair.Pair.TheVariants.{Both};
ghost use Rattle.figures.specs.Starts.{Fronted, IsFrontedAt};
ghost use Rattle.figures.specs.Pairs.{Paired, pair_of};
ghost use Rattle.figures.specs.Stamps.{stamp_in};

use crate::number::read_inside;
use crate::stamp::stamp_from;
use crate::two::two_of;

// The last bytes of a trade's value; the year begins with 20.
pub fn stamp_again(v: &[u8]) -> u64
    requires { (length v.now ≡ 14) × ((d : ℕ) × (stamp_in v.now ≡ Number d)) }
    ensures { stamp_in v.now ≡ Number result }
{
    stamp_from(
        two_of(v, 3),
        two_of(v, 5),
        two_of(v, 7),
        two_of(v, 10),
        two_of(v, 12),
    )
}

// The numbers of a price and of lots.
#[derive(Clone, Copy)]
pub struct Traded {
    pub price: u64,
    pub lots: u64,
}

// A price's number, and the place of the blank after it.
#[derive(Clone, Copy)]
struct Priced {
    price: u64,
    blank: usize,
}

// The digits of the price before its point, and where it has one those behind it.
fn price_again(v: &[u8]) -> Priced
    requires { Fronted v.now }
    ensures { IsFrontedAt result.price result.blank v.now }
{
    let whole = read_inside(v, 0);
    let point = whole.size;
    if v[point] != b'.' {
        return Priced {
            price: whole.number,
            blank: point,
        };
    }
    let rest = read_inside(&v[point + 1..], whole.number);
    Priced {
        price: rest.number,
        blank: point + 1 + rest.size,
    }
}

// And the lots after the blank, which end at the blank before the stamp.
pub fn pair_again(v: &[u8], cut: usize) -> Traded
    requires { Paired (take cut v.now) × (is " " (slice_index v.now cut) ≡ true) }
    ensures { (d : ℕ) × (pair_of (take cut v.now) ≡ Both result.price d result.lots) }
{
    let front = price_again(&v[..cut]);
    let lots = read_inside(&v[front.blank + 1..], 0);
    Traded {
        price: front.price,
        lots: lots.number,
    }
}
