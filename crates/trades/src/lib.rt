// Goes over a customer's trades.
#![tactic(auto)]

ghost use Rattle.std.specs.Prelude.{◌≡◌, ◌≤◌, ◌||◌, pos, drop};
ghost use Rattle.rules.specs.Text.{is};
ghost use Rattle.rules.specs.Fields.{fields_of};
ghost use Rattle.rules.specs.Book as book;
ghost use Rattle.rules.specs.Book.{on_side};
ghost use Rattle.laws.specs.Gains.{lots_on};
ghost use Rattle.fields.specs.Ranges.{Short};
ghost use Rattle.trades.specs.Walk.{trades_at, next_from, Readable, oldest_of};
ghost use Rattle.trades.specs.Trades.{none_yet, order_after, trades_from};

use fields::{Found, Refusal};
use rules::{Fen, Opening, Trade, lesser, refusal, tag};

// A customer's trades up to the field that closes the group: the lots opened on the side of its net position, their gain, and whether they
// come in order of their stamps.
#[derive(Clone, Copy)]
pub enum TradesAt {
    Closed {
        place: usize,
        opened: u64,
        gain: i64,
        ordered: bool,
    },
    Refused(Refusal),
}

// A trade that stands at a place and where it ends, or that none does.
#[derive(Clone, Copy)]
pub enum Next {
    At { trade: Trade, end: usize },
    End,
}

// The stamp of the last trade on a side, or 0, and whether none is below the one before.
#[derive(Clone, Copy)]
struct Order {
    last: u64,
    kept: bool,
}

// A trade's lots on a side.
pub fn lots_on(long: bool, t: Trade) -> u64
    ensures { result ≡ lots_on long t }
{
    if long {
        if t.bought { t.lots.0 } else { 0 }
    } else {
        if t.bought { 0 } else { t.lots.0 }
    }
}

fn on_side(long: bool, t: Trade) -> bool
    ensures { result ≡ on_side long t }
{
    if long { t.bought } else { !t.bought }
}

// The order with one trade more.
fn order_after(order: Order, long: bool, t: Trade) -> Order
    ensures { result ≡ order_after long order t }
{
    if on_side(long, t) {
        let kept = order.kept && order.last <= t.stamp.0;
        return Order {
            last: t.stamp.0,
            kept,
        };
    }
    order
}

fn no_trades(number: u64, place: usize) -> TradesAt
    ensures { result ≡ TradesAt.Refused (record { number = number; place = place }) }
{
    TradesAt::Refused(Refusal { number, place })
}

fn is_trade(tag: u8) -> bool
    ensures { result ≡ (is "B" tag || is "A" tag) }
{
    tag == tag::B || tag == tag::A
}

fn is_closing(tag: u8) -> bool
    ensures { result ≡ (is "C" tag || is "Z" tag) }
{
    tag == tag::C || tag == tag::Z
}

// A price above five times the settlement price, or below a fifth of it.
fn astray(settlement: Fen, price: Fen) -> bool
    requires fact_1 { settlement.0 ≤ 9_999_999 }
    requires fact_2 { price.0 ≤ 9_999_999 }
    ensures { result ≡ book.astray settlement price }
{
    5 * settlement.0 < price.0 || 5 * price.0 < settlement.0
}

// All trades of a group from a place on, up to the field that closes it: their lots on a side, the gain of these, and whether they come in
// order. Their prices have so many decimals, and are not too far from the settlement price.
pub fn read_trades(
    book: &[u8],
    decimals: usize,
    settlement: Fen,
    long: bool,
    first: usize,
) -> TradesAt
    requires fact_1 { Short book.now }
    requires fact_2 { settlement.0 ≤ 9_999_999 }
    ensures { result ≡ trades_from decimals long settlement first 0 (pos 0) none_yet (fields_of (drop first book.now)) }
{
    let mut at = first;
    let mut opened: u64 = 0;
    let mut gain: i64 = 0;
    let mut order = Order {
        last: 0,
        kept: true,
    };
    loop {
        let Found::Field { tag, start, end } = fields::field_at(book, at) else {
            return no_trades(refusal::CUT_SHORT, at);
        };
        if is_closing(tag) {
            return TradesAt::Closed {
                place: at,
                opened,
                gain,
                ordered: order.kept,
            };
        }
        if !is_trade(tag) {
            return no_trades(refusal::MISPLACED, at);
        }
        match figures::read_opening(&book[start..end], tag == tag::B) {
            Opening::Made {
                trade: t,
                decimals: written,
            } => {
                if written != decimals {
                    return no_trades(refusal::MALFORMED, at);
                }
                if astray(settlement, t.price) {
                    return no_trades(refusal::ASTRAY, at);
                }
                let n = lots_on(long, t);
                gain += gain::gain_of(long, settlement, t.price, n);
                opened += n;
                order = order_after(order, long, t);
            }
            Opening::Comma => return no_trades(refusal::COMMA, at),
            Opening::Malformed => return no_trades(refusal::MALFORMED, at),
        }
        at = end;
    }
}

// The trade at a place, or the end of the trades, where all were read before.
pub fn next_trade(book: &[u8], at: usize) -> Next
    requires { Readable book.now at }
    ensures { result ≡ next_from at (fields_of (drop at book.now)) }
{
    let Found::Field { tag, start, end } = fields::field_at(book, at) else {
        return Next::End;
    };
    if !is_trade(tag) {
        return Next::End;
    }
    let trade = figures::read_again(&book[start..end], tag == tag::B);
    Next::At { trade, end }
}

// The gain of the oldest `skip` lots on a side, of the trades from a place on, which were read before.
pub fn oldest_gain(book: &[u8], settlement: Fen, long: bool, first: usize, skip: u64) -> i64
    requires fact_1 { Short book.now }
    requires fact_2 { settlement.0 ≤ 9_999_999 }
    requires fact_3 { Readable book.now first }
    ensures { result ≡ oldest_of long settlement skip (trades_at book.now first) }
{
    let mut at = first;
    let mut left = skip;
    let mut gain: i64 = 0;
    while 0 < left {
        let Next::At { trade, end } = next_trade(book, at) else {
            return gain;
        };
        let n = lesser(lots_on(long, trade), left);
        gain += gain::gain_of(long, settlement, trade.price, n);
        left -= n;
        at = end;
    }
    gain
}
