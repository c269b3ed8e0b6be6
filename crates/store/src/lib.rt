// The gain of the newest lots of trades that do not come in order of their stamps, where they are few enough to be held. The book is read once,
// and nothing is sorted: what counts of a trade is the smaller of its lots and of what is still needed after all newer ones.
#![tactic(auto)]

ghost use Rattle.std.specs.Prelude.{◌≡◌, ◌+◌, ◌-◌, ◌≤◌, ◌<◌, min, cond, leb};
ghost use Rattle.fields.specs.Ranges.{Short};
ghost use Rattle.trades.specs.Walk.{Readable};
ghost use Rattle.store.specs.Held.{since, newer_lots, newer_at, Few, Priced, Sizes, Filled, Is, gain_held, stored_in};

use rules::{Fen, lesser};
use trades::Next;

// The gain of the newest lots, or that the trades do not fit the store.
#[derive(Clone, Copy)]
pub enum Stored {
    Gain(i64),
    TooMany,
}

// How many trades on a side the store has room for.
const ROOM: usize = 128;

// A trade's lots, where it is newer than a stamp: behind the place in question of the same stamp or a later one, before it of a later one.
fn part_newer(stamp: u64, lots: u64, than: u64, behind: bool) -> u64
    ensures { (result ≡ cond (leb (since than behind) stamp) lots 0) × (result ≤ lots) }
{
    if behind {
        return if than <= stamp { lots } else { 0 };
    }
    if than < stamp { lots } else { 0 }
}

// The lots newer than a stamp, at the places from `start` on and before `end`, which are all behind the place in question or all before it.
fn lots_newer(
    stamps: &[u64; 128],
    lots: &[u64; 128],
    start: usize,
    end: usize,
    than: u64,
    behind: bool,
) -> u64
    requires { Few lots.now end }
    ensures { (result ≡ newer_lots stamps.now lots.now start end (since than behind)) × (result ≤ 128_000_000) }
{
    let mut sum: u64 = 0;
    let mut i = start;
    while i < end {
        sum += part_newer(stamps[i], lots[i], than, behind);
        i += 1;
    }
    sum
}

// The lots newer than the trade at a place.
fn newer(stamps: &[u64; 128], lots: &[u64; 128], count: usize, i: usize) -> u64
    requires fact_1 { Few lots.now count }
    requires fact_2 { i < count }
    ensures { result ≡ newer_at stamps.now lots.now count i }
{
    let before = lots_newer(stamps, lots, 0, i, stamps[i], false);
    before + lots_newer(stamps, lots, i + 1, count, stamps[i], true)
}

// What counts of some lots, where so many are newer.
fn counted(lots: u64, need: u64, newer: u64) -> u64
    ensures { result ≡ min lots (need - newer) }
{
    if newer < need {
        lesser(lots, need - newer)
    } else {
        0
    }
}

// The gain of the newest `need` lots in the store.
fn gain_held(
    stamps: &[u64; 128],
    lots: &[u64; 128],
    prices: &[u32; 128],
    count: usize,
    settlement: Fen,
    long: bool,
    need: u64,
) -> i64
    requires { Priced settlement lots.now prices.now count }
    ensures { Is result (gain_held long settlement need stamps.now lots.now prices.now count) }
{
    let mut gain: i64 = 0;
    let mut i: usize = 0;
    while i < count {
        let n = counted(lots[i], need, newer(stamps, lots, count, i));
        gain += gain::gain_of(long, settlement, Fen(prices[i] as u64), n);
        i += 1;
    }
    gain
}

// Puts the trades with lots on a side into the store, from a place in the book on, and counts them; more than there is room for are one too many.
fn fill(
    book: &[u8],
    long: bool,
    first: usize,
    stamps: &mut [u64; 128],
    lots: &mut [u64; 128],
    prices: &mut [u32; 128],
) -> usize
    requires fact_1 { Readable book.now first }
    requires fact_2 { Sizes stamps.old lots.old prices.old }
    ensures { Filled long book.now first result stamps.new lots.new prices.new }
{
    let mut count: usize = 0;
    let mut at = first;
    loop {
        let Next::At { trade, end } = trades::next_trade(book, at) else {
            return count;
        };
        let n = trades::lots_on(long, trade);
        if 0 < n {
            if count == ROOM {
                return ROOM + 1;
            }
            stamps[count] = trade.stamp.0;
            lots[count] = n;
            prices[count] = trade.price.0 as u32;
            count += 1;
        }
        at = end;
    }
}

// The gain of the newest `need` lots on a side, of the trades from a place on.
pub fn stored_gain(book: &[u8], settlement: Fen, long: bool, first: usize, need: u64) -> Stored
    requires fact_1 { Short book.now }
    requires fact_2 { settlement.0 ≤ 9_999_999 }
    requires fact_3 { Readable book.now first }
    ensures { result ≡ stored_in long settlement need book.now first }
{
    let mut stamps = [0u64; 128];
    let mut lots = [0u64; 128];
    let mut prices = [0u32; 128];
    let count = fill(book, long, first, &mut stamps, &mut lots, &mut prices);
    if ROOM < count {
        return Stored::TooMany;
    }
    let gain = gain_held(&stamps, &lots, &prices, count, settlement, long, need);
    Stored::Gain(gain)
}
