// X lots over weights by largest remainders; equal remainders go to the smaller key. One array: the weights stand in it before, the
// lots after, and in between each member's part.
#![tactic(auto)]

ghost use Rattle.std.specs.Prelude.{◌≡◌, ℕ, ◌+◌, ◌*◌, ◌/◌, ◌%◌, ◌-◌, ◌≤◌, ◌<◌, max, length};
ghost use Rattle.rules.specs.Division.{one_if};
ghost use Rattle.division.specs.Shares.{at, divided, Lent};
ghost use Rattle.division.specs.Parts.{base, whole_in_of, before, counts, count_of, Sought, Found, Ready, Spread, Parted, Spanned, IsLast, Settled};

use rules::lesser;

// A member's part is one number: its whole lots, times this, and what it lacks of one lot more, which is at most the sum of the weights.
const BASE: u64 = 4_294_967_296;

// The last to get one of the lots left over: what it lacks, and its key.
#[derive(Clone, Copy)]
struct Last {
    lack: u64,
    key: u64,
}

#[derive(Clone, Copy)]
struct Span {
    least: u64,
    most: u64,
}

// The part of a product of x and a weight, divided by the sum. Most customers have no weight in most divisions: nothing is divided then.
fn part_of(product: u64, sum: u64) -> u64
    requires { (0 < sum) × ((sum < base) × (product / sum ≤ 4_000_000)) }
    ensures { result ≡ product / sum * base + (sum - product % sum) }
{
    if product == 0 {
        return sum;
    }
    product / sum * BASE + (sum - product % sum)
}

// Puts each member's part in the place of its weight. Returns the sum of the whole lots.
fn spread(lots: &mut [u64], count: usize, x: u64, sum: u64) -> u64
    requires { Ready lots.old count x sum }
    ensures { Spread lots.old lots.new count x sum result }
{
    let mut whole: u64 = 0;
    let mut i: usize = 0;
    while i < count {
        let part = part_of(x * lots[i], sum);
        lots[i] = part;
        whole += part / BASE;
        i += 1;
    }
    whole
}

// 1 where a member counts in a search up to `most`, else 0: by what it lacks where `edge` is 0; else by its key, if it lacks the edge.
fn counted(part: u64, key: u64, edge: u64, most: u64) -> u64
    ensures { (result ≡ one_if (counts edge part key (most + 1))) × (result ≤ 1) }
{
    let lack = part % BASE;
    if edge == 0 {
        return (lack <= most) as u64;
    }
    ((lack == edge) & (key <= most)) as u64
}

// How many of the members count in a search up to `most`.
fn reached(lots: &[u64], keys: &[u64], count: usize, edge: u64, most: u64) -> u64
    requires { (count ≤ length lots.now) × (count ≤ length keys.now) }
    ensures { result ≡ count_of lots.now keys.now edge count (most + 1) }
{
    let mut n: u64 = 0;
    let mut i: usize = 0;
    while i < count {
        n += counted(lots[i], keys[i], edge, most);
        i += 1;
    }
    n
}

// Finds the least number, from `least` to `most`, up to which `need` members count, or any up to which exactly `need` do: by halves.
fn find_edge(
    lots: &[u64],
    keys: &[u64],
    count: usize,
    edge: u64,
    need: u64,
    least: u64,
    most: u64,
) -> u64
    requires count_in_bounds { (count ≤ length lots.now) × (count ≤ length keys.now) }
    requires sought { Sought (count_of lots.now keys.now edge count) need least most }
    ensures { Found (count_of lots.now keys.now edge count) need least result }
{
    let mut low = least;
    let mut high = most;
    while low < high {
        let middle = low + (high - low) / 2;
        let n = reached(lots, keys, count, edge, middle);
        if n == need {
            return middle;
        }
        if n < need {
            low = middle + 1;
        } else {
            high = middle;
        }
    }
    low
}

fn greater(a: u64, b: u64) -> u64
    ensures { result ≡ max a b }
{
    if a < b { b } else { a }
}

// Keys between which lie those of all members that lack the edge.
fn extent(lots: &[u64], keys: &[u64], count: usize, edge: u64) -> Span
    requires { (count ≤ length lots.now) × (count ≤ length keys.now) }
    ensures { Spanned lots.now keys.now count edge result.least result.most }
{
    let mut least: u64 = 18_446_744_073_709_551_615;
    let mut most: u64 = 0;
    let mut i: usize = 0;
    while i < count {
        if lots[i] % BASE == edge {
            least = lesser(least, keys[i]);
            most = greater(most, keys[i]);
        }
        i += 1;
    }
    Span {
        least: lesser(least, most),
        most,
    }
}

// Finds the last to get one of the `spare` lots left over.
fn find_last(lots: &[u64], keys: &[u64], count: usize, spare: u64, sum: u64) -> Last
    requires count_in_bounds { (count ≤ length lots.now) × (count ≤ length keys.now) }
    requires parted { Parted lots.now count spare sum }
    ensures { IsLast lots.now keys.now count spare result.lack result.key }
{
    if spare == 0 {
        return Last { lack: 0, key: 0 };
    }
    let lack = find_edge(lots, keys, count, 0, spare, 1, sum);
    let span = extent(lots, keys, count, lack);
    let most = span.most;
    if reached(lots, keys, count, 0, lack) == spare {
        return Last { lack, key: most };
    }
    let sooner = reached(lots, keys, count, 0, lack - 1);
    let key = find_edge(lots, keys, count, lack, spare - sooner, span.least, most);
    Last { lack, key }
}

// 1 where a member is not after the last, which lacks `edge` and has the key `most`; else 0.
fn one_more(lack: u64, key: u64, edge: u64, most: u64) -> u64
    ensures { (result ≡ one_if (before lack key edge (most + 1))) × (result ≤ 1) }
{
    if lack < edge {
        return 1;
    }
    if lack == edge {
        return (key <= most) as u64;
    }
    0
}

// Puts each member's lots in the place of its part: the whole lots, and one more where it is not after the last.
fn settle(lots: &mut [u64], keys: &[u64], count: usize, last: Last)
    requires count_in_bounds { (count ≤ length lots.old) × (count ≤ length keys.now) }
    requires by_index { (i : ℕ) → i < count → whole_in_of (at lots.old i) ≤ 4_000_000 }
    ensures { Settled lots.old keys.now lots.new count last.lack last.key }
{
    let edge = last.lack;
    let most = last.key;
    let mut i: usize = 0;
    while i < count {
        let part = lots[i];
        lots[i] = part / BASE + one_more(part % BASE, keys[i], edge, most);
        i += 1;
    }
}

// Divides x over the first `count` places of `lots`, which hold the weights and then the lots; `sum` is the sum of the weights. Where
// all of it is divided, each has its lots already.
pub fn divide(lots: &mut [u64], keys: &[u64], count: usize, x: u64, sum: u64)
    requires { Lent lots.old keys.now count x sum }
    ensures { lots.new ≡ divided keys.now count x lots.old }
{
    if x == sum {
        return;
    }
    let spare = x - spread(lots, count, x, sum);
    let last = find_last(lots, keys, count, spare, sum);
    settle(lots, keys, count, last);
}
