// Reads the figures of a book, and the value of a trade, which is two of them and a stamp. A figure that is well formed has no comma,
// so a comma is looked for only in a value that could not be read.
#![tactic(auto)]

ghost use Rattle.std.specs.Prelude.{◌≡◌, ℕ, true};
ghost use Rattle.rules.specs.declared.Opening.TheVariants.{Made};
ghost use Rattle.rules.specs.declared.Written.TheVariants.{Number};
ghost use Rattle.rules.specs.Figures.{price_form, held_form, written_of, asked, figure_of, has};
ghost use Rattle.rules.specs.Opening.{opening_of};
ghost use Rattle.figures.specs.Good.{good, trade_of};
ghost use Rattle.figures.specs.Numbers.{no_figure, refused_as_of, no_opening};

mod again;
mod number;
mod pair;
mod stamp;
mod start;
mod two;

use again::{pair_again, stamp_again};
use number::{Digits, may_be_whole, read_run};
use pair::{Pair, read_pair};
use rules::{Fen, Figure, Form, Lots, Opening, Stamp, Trade, Written};
use stamp::read_stamp;
use start::{Start, read_start};

// 99999.99
const LONGEST: usize = 8;

pub const RATE: Form = Form {
    decimals: 3,
    least: 1, // 0.001
    most: 99_999, // 99.999
};

// Lots in K, H and Q.
pub const HELD: Form = Form {
    decimals: 0,
    least: 0,
    most: 1_000_000,
};

// A price in a book whose prices have so many decimals: 0.01 to 99999.99, or 1 to 9999999.
pub fn price_form(decimals: usize) -> Form
    ensures { result ≡ price_form decimals }
{
    Form {
        decimals,
        least: 1,
        most: 9_999_999,
    }
}

fn has_comma(v: &[u8]) -> bool
    ensures { result ≡ has "," v.now }
{
    let mut i = 0;
    while i < v.len() {
        if v[i] == b',' {
            return true;
        }
        i += 1;
    }
    false
}

fn no_figure(v: &[u8]) -> Written
    ensures { result ≡ no_figure v.now }
{
    if has_comma(v) {
        Written::Comma
    } else {
        Written::Malformed
    }
}

// A number of so many decimals, to who asks for a form.
fn allowed(form: Form, number: u64, decimals: usize) -> Figure
    ensures { result ≡ asked form (Number number decimals) }
{
    if decimals != form.decimals {
        return Figure::Malformed;
    }
    if number < form.least {
        return Figure::Malformed;
    }
    if form.most < number {
        return Figure::Malformed;
    }
    Figure::Value(number)
}

// What a figure says, with the decimals that it has.
pub fn read_written(v: &[u8]) -> Written
    ensures { result ≡ written_of v.now }
{
    if LONGEST < v.len() {
        return no_figure(v);
    }
    let Start::Ends {
        number,
        decimals,
        end,
    } = read_start(v)
    else {
        return no_figure(v);
    };
    if end != v.len() {
        return no_figure(v);
    }
    Written::Number { number, decimals }
}

fn refused(written: Written) -> Figure
    ensures { result ≡ refused_as_of written }
{
    match written {
        Written::Number {
            number: _,
            decimals: _,
        } => Figure::Malformed,
        Written::Comma => Figure::Comma,
        Written::Malformed => Figure::Malformed,
    }
}

// And what it says to who asks for a form. A trade and lots held have readers of their own, which answer the same.
pub fn read_figure(v: &[u8], form: Form) -> Figure
    ensures { result ≡ figure_of form v.now }
{
    let written = read_written(v);
    let Written::Number { number, decimals } = written else {
        return refused(written);
    };
    allowed(form, number, decimals)
}

// A value that is no figure.
fn no_value(v: &[u8]) -> Figure
    ensures { result ≡ refused_as_of (no_figure v.now) }
{
    refused(no_figure(v))
}

// Lots in K, H and Q: digits alone, so that no point is looked for. Short enough for LLVM to put it into the loop over a customer's seats.
pub fn read_held(v: &[u8]) -> Figure
    ensures { result ≡ figure_of held_form v.now }
{
    if !may_be_whole(v) {
        return no_value(v);
    }
    let run = read_run(v, 0);
    if run.size != v.len() {
        return no_value(v);
    }
    allowed(HELD, run.number, 0)
}

fn no_opening(v: &[u8]) -> Opening
    ensures { result ≡ no_opening v.now }
{
    if has_comma(v) {
        Opening::Comma
    } else {
        Opening::Malformed
    }
}

fn trade_of(bought: bool, price: u64, lots: u64, made: u64) -> Trade
    ensures { result ≡ trade_of bought price lots made }
{
    Trade {
        bought,
        price: Fen(price),
        lots: Lots(lots),
        stamp: Stamp(made),
    }
}

// The value of a B, which is bought, or of an A: a price, one blank, lots, and when the trade was made. The stamp is looked at first, since its
// place is known from the end.
pub fn read_opening(v: &[u8], bought: bool) -> Opening
    ensures { result ≡ opening_of bought v.now }
{
    if v.len() < stamp::SIZE {
        return no_opening(v);
    }
    let cut = v.len() - stamp::SIZE;
    let Digits::Number(made) = read_stamp(&v[cut..]) else {
        return no_opening(v);
    };
    let Pair::Both {
        price,
        decimals,
        lots,
    } = read_pair(&v[..cut])
    else {
        return no_opening(v);
    };
    Opening::Made {
        trade: trade_of(bought, price, lots, made),
        decimals,
    }
}

// A trade that was read before, read again: nothing can be wrong with it.
pub fn read_again(v: &[u8], bought: bool) -> Trade
    requires { good (opening_of bought v.now) ≡ true }
    ensures { (d : ℕ) × (opening_of bought v.now ≡ Made result d) }
{
    let cut = v.len() - stamp::SIZE;
    let both = pair_again(v, cut);
    let made = stamp_again(&v[cut..]);
    trade_of(bought, both.price, both.lots, made)
}
