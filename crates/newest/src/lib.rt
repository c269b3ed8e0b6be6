// The gain of the newest lots of trades in any order of their stamps. Where a customer has more trades than the store holds, the book is gone
// over a few times, and no trade is stored: each time the range is narrowed in which the edge lies, the stamp of the oldest lot that counts.
#![tactic(auto)]

ghost use Rattle.std.specs.Prelude.{◌≡◌, ◌+◌, ◌-◌, ◌*◌, ◌≤◌, ◌<◌, cond, ltb, eqb};
ghost use Rattle.fields.specs.Ranges.{Short};
ghost use Rattle.order.specs.Buckets.{bucket_of};
ghost use Rattle.trades.specs.Walk.{Readable, newest_in};
ghost use Rattle.newest.specs.Search.{from_in, Counted, Range, Sought, Is, kept_in};

use rules::Fen;
use store::Stored;
use trades::Next;

// The first stamp of 2000, and the stamps of a hundred years.
const EARLIEST: u64 = 28_800_000_000;

const SPAN: u64 = 1_440_000_000;

// The lots of 72 buckets, and then of what is in none.
#[derive(Drop)]
struct Buckets {
    lots: [u64; 73],
}

// A bucket, and the lots from its start on.
#[derive(Clone, Copy)]
struct Step {
    bucket: u64,
    have: u64,
}

// A stamp, and the lots of it or later.
#[derive(Clone, Copy)]
struct Edge {
    stamp: u64,
    have: u64,
}

// The bucket of a stamp; 72 is for those of none.
fn bucket_of(stamp: u64, low: u64, width: u64) -> u64
    requires { 0 < width }
    ensures { (result ≡ bucket_of low width stamp) × (result ≤ 72) }
{
    if stamp < low {
        return 72;
    }
    let n = (stamp - low) / width;
    if n < 72 { n } else { 72 }
}

// Counts the lots on a side in buckets.
fn count(book: &[u8], long: bool, first: usize, low: u64, width: u64) -> Buckets
    requires fact_1 { Short book.now }
    requires fact_2 { 0 < width }
    requires fact_3 { Readable book.now first }
    ensures { Counted (from_in long book.now first) low width result.lots }
{
    let mut b = [0u64; 73];
    let mut at = first;
    loop {
        let Next::At { trade, end } = trades::next_trade(book, at) else {
            return Buckets { lots: b };
        };
        let n = trades::lots_on(long, trade);
        let k = bucket_of(trade.stamp.0, low, width) as usize;
        b[k] += n;
        at = end;
    }
}

// Finds the last bucket from whose start on there are enough lots.
fn find_bucket(
    book: &[u8],
    long: bool,
    first: usize,
    low: u64,
    width: u64,
    need: u64,
    have: u64,
) -> Step
    requires fact_1 { Short book.now }
    requires fact_2 { 0 < width }
    requires fact_3 { Range (from_in long book.now first) need low (72 * width) have }
    requires fact_4 { Readable book.now first }
    ensures { Range (from_in long book.now first) need (low + result.bucket * width) width result.have }
{
    let b = count(book, long, first, low, width).lots;
    let mut i: usize = 0;
    let mut left = have;
    while need <= left - b[i] {
        left -= b[i];
        i += 1;
    }
    Step {
        bucket: i as u64,
        have: left,
    }
}

// Finds the edge.
fn find_edge(book: &[u8], long: bool, first: usize, need: u64, opened: u64) -> Edge
    requires fact_1 { Short book.now }
    requires fact_2 { Sought long book.now first need opened }
    requires fact_3 { Readable book.now first }
    ensures { Range (from_in long book.now first) need result.stamp 1 result.have }
{
    let mut low = EARLIEST;
    let mut width = SPAN;
    let mut have = opened;
    while 1 < width {
        width = (width + 71) / 72;
        let step = find_bucket(book, long, first, low, width, need, have);
        low += step.bucket * width;
        have = step.have;
    }
    Edge { stamp: low, have }
}

// The lots of a trade that count, where all later than e do, and of stamp e all but the first `left`.
fn kept_of(stamp: u64, lots: u64, e: u64, left: u64) -> u64
    ensures { (result ≡ cond (ltb e stamp) lots (cond (eqb stamp e) (lots - left) 0)) × (result ≤ lots) }
{
    if e < stamp {
        return lots;
    }
    if stamp == e {
        if left < lots {
            return lots - left;
        }
    }
    0
}

// How many of stamp e are still to be passed over after a trade.
fn left_after(stamp: u64, lots: u64, e: u64, left: u64) -> u64
    ensures { result ≡ left - cond (eqb stamp e) lots 0 }
{
    if stamp == e {
        return if lots < left { left - lots } else { 0 };
    }
    left
}

// The gain of all lots on a side later than e, and of those of stamp e but for the first `skip`.
fn kept_gain(book: &[u8], settlement: Fen, long: bool, first: usize, e: u64, skip: u64) -> i64
    requires fact_1 { Short book.now }
    requires fact_2 { settlement.0 ≤ 9_999_999 }
    requires fact_3 { Readable book.now first }
    ensures { Is result (kept_in long settlement e skip book.now first) }
{
    let mut at = first;
    let mut left = skip;
    let mut gain: i64 = 0;
    loop {
        let Next::At { trade, end } = trades::next_trade(book, at) else {
            return gain;
        };
        let lots = trades::lots_on(long, trade);
        let n = kept_of(trade.stamp.0, lots, e, left);
        gain += gain::gain_of(long, settlement, trade.price, n);
        left = left_after(trade.stamp.0, lots, e, left);
        at = end;
    }
}

// The gain of the newest `need` of the `opened` lots on a side, of any number of trades from a place on.
fn edge_gain(book: &[u8], settlement: Fen, long: bool, first: usize, need: u64, opened: u64) -> i64
    requires fact_1 { Short book.now }
    requires fact_2 { settlement.0 ≤ 9_999_999 }
    requires fact_3 { Sought long book.now first need opened }
    requires fact_4 { Readable book.now first }
    ensures { result ≡ newest_in long settlement need book.now first }
{
    let edge = find_edge(book, long, first, need, opened);
    kept_gain(book, settlement, long, first, edge.stamp, edge.have - need)
}

// The same, by the store where the trades fit it.
pub fn newest_gain(
    book: &[u8],
    settlement: Fen,
    long: bool,
    first: usize,
    need: u64,
    opened: u64,
) -> i64
    requires fact_1 { Short book.now }
    requires fact_2 { settlement.0 ≤ 9_999_999 }
    requires fact_3 { Sought long book.now first need opened }
    requires fact_4 { Readable book.now first }
    ensures { result ≡ newest_in long settlement need book.now first }
{
    match store::stored_gain(book, settlement, long, first, need) {
        Stored::Gain(gain) => gain,
        Stored::TooMany => edge_gain(book, settlement, long, first, need, opened),
    }
}
