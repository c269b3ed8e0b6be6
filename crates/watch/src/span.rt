// One span of days that ends on the newest of six: whether price and open interest reach their percentages.
ghost use Rattle.std.specs.Prelude.{◌≡◌, ◌∷◌, ◌≤◌, take};
ghost use Rattle.watch.specs.Watch.{reaches};
ghost use Rattle.watch.specs.Window.{most, Small, Few, bits_in, byte_in};

use crate::table::{Row, row_of};
use days::Metal;
use rules::{Fen, Lots};

// The day itself, and the five before it.
pub const WINDOW: usize = 6;

// What is kept of a day: its settlement price and its open interest.
#[derive(Clone, Copy)]
pub struct Close {
    pub price: Fen,
    pub interest: Lots,
}

// Of a day that is not there.
pub const NONE: Close = Close {
    price: Fen(0),
    interest: Lots(0),
};

// Whether a change is at least so many percent of what it is measured from.
fn reaches(percent: u64, change: u64, base: u64) -> bool
    requires percent_bound { percent ≤ 100 }
    requires change_le_most { change ≤ most }
    requires base_le_most { base ≤ most }
    ensures { result ≡ reaches percent change base }
{
    percent * base <= change * 100
}

// The bits of one span, where so many days are there: 1 for the price and 8 for open interest.
#[tactic(auto, using(crate::proofs::Bits::apart), unfolding(crate::specs::Window::bits_in))]
fn span_bits(row: Row, window: &[Close; WINDOW], count: usize) -> u64
    requires few { Few row }
    requires small { Small window.now }
    ensures { result ≡ bits_in row window.now count }
{
    if count <= row.days {
        return 0;
    }
    let now = window[0];
    let base = window[row.days];
    let price = base.price.0;
    let interest = base.interest.0;
    let moved = reaches(row.price, now.price.0.abs_diff(price), price);
    let grown = reaches(
        row.interest,
        now.interest.0.saturating_sub(interest),
        interest,
    );
    u64::from(moved) + 8 * u64::from(grown)
}

// The byte of the newest day, where so many days are there.
#[tactic(auto, using(crate::proofs::Bits::bits_most, crate::specs::Window::row_few), unfolding(crate::specs::Window::byte_in))]
pub fn byte_of(metal: Metal, window: &[Close; WINDOW], count: usize) -> u8
    requires { Small window.now }
    ensures { result ≡ byte_in metal window.now count }
{
    let three = span_bits(row_of(metal, 0), window, count);
    let four = span_bits(row_of(metal, 1), window, count);
    let five = span_bits(row_of(metal, 2), window, count);
    (three + 2 * four + 4 * five) as u8
}

// One more in front; the last goes.
pub fn shift(window: &mut [Close; WINDOW], newest: Close)
    ensures { window.new ≡ newest ∷ take 5 window.old }
{
    window.copy_within(..WINDOW - 1, 1);
    window[0] = newest;
}
