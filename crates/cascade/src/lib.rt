// The cascade: a state by value, with a method for one tier that hands the state back. The customers' columns are lent.
#![tactic(auto)]

pub mod rows;

ghost use Rattle.std.specs.Prelude.{◌≡◌, length, ◌≤◌, ◌<◌};
ghost use Rattle.rules.specs.Division.{sum_of};
ghost use Rattle.rules.specs.Cascade.{pending_of};
ghost use Rattle.laws.specs.Sums.{up_to};
ghost use Rattle.laws.specs.Filled.{filled};
ghost use Rattle.division.specs.Shares.{Lent};
ghost use Rattle.cascade.specs.Columns.{columns, lines_of};
ghost use Rattle.cascade.specs.State.{after_tier, after_all, Steady, weight_in, weight_at, stake_at, added_at, dealt_at, Within, Stood, Staked, Weighed, Addable, Open};

use rules::{MOST_CUSTOMERS, lesser};

// What each customer has offset so far, and the sum of the quantities. A customer's lots stay below 2^32.
#[derive(Drop)]
pub struct Cascade {
    pub offset: [u32; MOST_CUSTOMERS],
    pub total: u64,
}

// What a customer has at stake in tier k, or for 0 what it still has pending; nothing where its standing is another.
fn weight_of(k: u8, standing: u8, stake: u32, offset: u32) -> u64
    requires { Within standing stake offset }
    ensures { result ≡ weight_in k standing stake offset }
{
    if standing != k {
        return 0;
    }
    if k == 0 {
        return (stake - offset) as u64;
    }
    stake as u64
}

// Puts each customer's weight in tier k, or for 0 what it still has pending, into `lots`. Returns the sum.
fn weigh(
    standings: &[u8],
    stakes: &[u32],
    offset: &[u32],
    count: usize,
    k: u8,
    lots: &mut [u64],
) -> u64
    requires staked { Staked standings.now stakes.now offset.now count }
    requires count_in_bounds { count ≤ length lots.old }
    ensures { Weighed (weight_at k standings.now stakes.now offset.now) count lots.old lots.new result }
{
    let mut sum: u64 = 0;
    let mut i: usize = 0;
    while i < count {
        let w = weight_of(k, standings[i], stakes[i], offset[i]);
        lots[i] = w;
        sum += w;
        i += 1;
    }
    sum
}

// Adds the lots to what is offset.
fn add(offset: &mut [u32], lots: &[u64], count: usize)
    requires { Addable offset.old lots.now count }
    ensures { offset.new ≡ filled (added_at offset.old lots.now) count offset.old }
{
    let mut i: usize = 0;
    while i < count {
        offset[i] = offset[i] + lots[i] as u32;
        i += 1;
    }
}

// Divides x over the weights in `lots`, and adds each customer's lots to what it has offset.
fn deal(lots: &mut [u64], keys: &[u64], count: usize, x: u64, sum: u64, offset: &mut [u32])
    requires lent { Lent lots.old keys.now count x sum }
    requires fact { Open lots.old offset.old count }
    ensures { (offset.new ≡ filled (dealt_at keys.now lots.old count x offset.old) count offset.old) × (length lots.new ≡ length lots.old) }
{
    division::divide(lots, keys, count, x, sum);
    add(offset, lots, count);
}

// What all have at stake in tier k, or for 0 what they had pending at first.
pub fn staked(standings: &[u8], stakes: &[u32], count: usize, k: u8) -> u64
    requires { Stood standings.now stakes.now count }
    ensures { result ≡ sum_of (stake_at k standings.now stakes.now) (up_to count) }
{
    let mut sum: u64 = 0;
    let mut i: usize = 0;
    while i < count {
        sum += weight_of(k, standings[i], stakes[i], 0);
        i += 1;
    }
    sum
}

impl Cascade {
    // One tier: its quantity is divided twice, by what is pending and by what is offered in the tier. No more is divided where all of
    // a side is. Where nobody is in the tier, no array is made for it: most small books have such a tier.
    pub fn tier(
        self,
        keys: &[u64],
        standings: &[u8],
        stakes: &[u32],
        count: usize,
        k: u8,
    ) -> Cascade
        requires steady { Steady 4_000_000_000 (columns keys.now standings.now stakes.now count) self }
        requires k_nonzero { (0 < k) × (k ≤ 3) }
        ensures { result ≡ after_tier k (columns keys.now standings.now stakes.now count) self }
    {
        let offered = staked(standings, stakes, count, k);
        if offered == 0 {
            return self;
        }
        let mut offset = self.offset;
        let mut lots = [0u64; MOST_CUSTOMERS];
        let pending = weigh(standings, stakes, &offset, count, 0, &mut lots);
        let x = lesser(pending, offered);
        if x == 0 {
            return self;
        }
        deal(&mut lots, keys, count, x, pending, &mut offset);
        weigh(standings, stakes, &offset, count, k, &mut lots);
        deal(&mut lots, keys, count, x, offered, &mut offset);
        Cascade {
            offset: offset,
            total: self.total + x,
        }
    }

    // The three tiers, where `owed` is what is pending; k is the last that was worked. Where nothing is pending, nothing moves.
    pub fn run(
        self,
        keys: &[u64],
        standings: &[u8],
        stakes: &[u32],
        count: usize,
        owed: u64,
    ) -> Cascade
        requires steady { Steady 0 (columns keys.now standings.now stakes.now count) self }
        requires owed_value { owed ≡ sum_of pending_of (lines_of (columns keys.now standings.now stakes.now count) self.offset) }
        ensures { result ≡ after_all (columns keys.now standings.now stakes.now count) self }
    {
        if owed == 0 {
            return self;
        }
        let mut state = self;
        let mut k: u8 = 0;
        while k < 3 {
            k += 1;
            state = state.tier(keys, standings, stakes, count, k);
        }
        state
    }
}

// The three tiers, in rows or in columns: what they give is the same.
pub fn run(
    start: Cascade,
    keys: &[u64],
    standings: &[u8],
    stakes: &[u32],
    count: usize,
    owed: u64,
    in_rows: bool,
) -> Cascade
    requires steady { Steady 0 (columns keys.now standings.now stakes.now count) start }
    requires owed_value { owed ≡ sum_of pending_of (lines_of (columns keys.now standings.now stakes.now count) start.offset) }
    ensures { result ≡ after_all (columns keys.now standings.now stakes.now count) start }
{
    if in_rows {
        rows::run(start, keys, standings, stakes, count)
    } else {
        start.run(keys, standings, stakes, count, owed)
    }
}
