// The customers in rows: the layout beside the columns, with a cascade of its own. The product's call uses columns, which take less time
// and stack (docs/BENCHMARKS.md).
ghost use Rattle.std.specs.Prelude.{◌≡◌, map, ◌≤◌, ◌<◌, length};
ghost use Rattle.rules.specs.Limits.{most_customers};
ghost use Rattle.laws.specs.Filled.{filled};
ghost use Rattle.division.specs.Shares.{at, Lent};
ghost use Rattle.cascade.specs.Columns.{columns};
ghost use Rattle.cascade.specs.State.{after_tier, after_all, Steady, weight_at, added_at, dealt_at, Staked, Weighed, Addable, Open};
ghost use Rattle.cascade.specs.Rows.{key_in, standing_in, stake_in, offset_in, row_at, no_rows, Turnable, Turned, offset_by, columns_of, state_of};

use crate::Cascade;
use rules::{MOST_CUSTOMERS, lesser};

// A customer: its key, its standing's byte, its stake, and what it has offset so far.
#[derive(Clone, Copy)]
pub struct Row {
    pub key: u64,
    pub standing: u8,
    pub stake: u32,
    pub offset: u32,
}

// The cascade's state in rows.
#[derive(Drop)]
struct Rows {
    rows: [Row; MOST_CUSTOMERS],
    total: u64,
}

// The customers of the columns in rows; behind them are rows of nothing.
pub fn to_rows(
    keys: &[u64],
    standings: &[u8],
    stakes: &[u32],
    offset: &[u32],
    count: usize,
) -> [Row; MOST_CUSTOMERS]
    requires { Turnable keys.now standings.now stakes.now offset.now count }
    ensures { result ≡ filled (row_at keys.now standings.now stakes.now offset.now) count no_rows }
{
    let none = Row {
        key: 0,
        standing: 0,
        stake: 0,
        offset: 0,
    };
    let mut rows = [none; MOST_CUSTOMERS];
    let mut i: usize = 0;
    while i < count {
        rows[i] = Row {
            key: keys[i],
            standing: standings[i],
            stake: stakes[i],
            offset: offset[i],
        };
        i += 1;
    }
    rows
}

// The customers of the rows in the first places of the columns.
pub fn to_columns(
    rows: [Row; MOST_CUSTOMERS],
    count: usize,
    keys: &mut [u64],
    standings: &mut [u8],
    stakes: &mut [u32],
    offset: &mut [u32],
)
    requires { Turnable keys.old standings.old stakes.old offset.old count }
    ensures { Turned rows count keys.old standings.old stakes.old offset.old keys.new standings.new stakes.new offset.new }
{
    let mut i: usize = 0;
    while i < count {
        let row = rows[i];
        keys[i] = row.key;
        standings[i] = row.standing;
        stakes[i] = row.stake;
        offset[i] = row.offset;
        i += 1;
    }
}

// Puts each customer's key into `keys`: a division asks for them in a run of their own.
fn take_keys(rows: [Row; MOST_CUSTOMERS], count: usize, keys: &mut [u64])
    requires { (count ≤ most_customers) × (count ≤ length keys.old) }
    ensures { keys.new ≡ filled (at (map key_in rows)) count keys.old }
{
    let mut i: usize = 0;
    while i < count {
        let row = rows[i];
        keys[i] = row.key;
        i += 1;
    }
}

// Puts each customer's weight in tier k, or for 0 what it still has pending, into `lots`. Returns the sum.
fn weigh(rows: [Row; MOST_CUSTOMERS], count: usize, k: u8, lots: &mut [u64]) -> u64
    requires staked { Staked (map standing_in rows) (map stake_in rows) (map offset_in rows) count }
    requires count_in_bounds { count ≤ length lots.old }
    ensures { Weighed (weight_at k (map standing_in rows) (map stake_in rows) (map offset_in rows)) count lots.old lots.new result }
{
    let mut sum: u64 = 0;
    let mut i: usize = 0;
    while i < count {
        let row = rows[i];
        let w = crate::weight_of(k, row.standing, row.stake, row.offset);
        lots[i] = w;
        sum += w;
        i += 1;
    }
    sum
}

// Adds the lots to what is offset.
fn add(rows: [Row; MOST_CUSTOMERS], lots: &[u64], count: usize) -> [Row; MOST_CUSTOMERS]
    requires { (count ≤ most_customers) × Addable (map offset_in rows) lots.now count }
    ensures { result ≡ offset_by (added_at (map offset_in rows) lots.now) count rows }
{
    let mut after = rows;
    let mut i: usize = 0;
    while i < count {
        let row = after[i];
        after[i] = Row {
            key: row.key,
            standing: row.standing,
            stake: row.stake,
            offset: row.offset + lots[i] as u32,
        };
        i += 1;
    }
    after
}

// Divides x over the weights in `lots`, and adds each customer's lots to what it has offset.
fn deal(
    rows: [Row; MOST_CUSTOMERS],
    lots: &mut [u64],
    keys: &[u64],
    count: usize,
    x: u64,
    sum: u64,
) -> [Row; MOST_CUSTOMERS]
    requires lent { Lent lots.old keys.now count x sum }
    requires fact { Open lots.old (map offset_in rows) count }
    ensures { (result ≡ offset_by (dealt_at keys.now lots.old count x (map offset_in rows)) count rows) × (length lots.new ≡ length lots.old) }
{
    division::divide(lots, keys, count, x, sum);
    add(rows, lots, count)
}

impl Rows {
    // One tier over rows: as over columns.
    fn tier(self, count: usize, k: u8) -> Rows
        requires steady { Steady 4_000_000_000 (columns_of self.rows count) (state_of self) }
        requires k_nonzero { (0 < k) × (k ≤ 3) }
        ensures { (columns_of result.rows count ≡ columns_of self.rows count) × (state_of result ≡ after_tier k (columns_of self.rows count) (state_of self)) }
    {
        let rows = self.rows;
        let mut keys = [0u64; MOST_CUSTOMERS];
        let mut lots = [0u64; MOST_CUSTOMERS];
        take_keys(rows, count, &mut keys);
        let offered = weigh(rows, count, k, &mut lots);
        let pending = weigh(rows, count, 0, &mut lots);
        let x = lesser(pending, offered);
        if x == 0 {
            return self;
        }
        let closed = deal(rows, &mut lots, &keys, count, x, pending);
        weigh(closed, count, k, &mut lots);
        let given = deal(closed, &mut lots, &keys, count, x, offered);
        Rows {
            rows: given,
            total: self.total + x,
        }
    }
}

// The three tiers over rows: the columns are turned into rows, and these back into columns.
pub fn run(start: Cascade, keys: &[u64], standings: &[u8], stakes: &[u32], count: usize) -> Cascade
    requires { Steady 0 (columns keys.now standings.now stakes.now count) start }
    ensures { result ≡ after_all (columns keys.now standings.now stakes.now count) start }
{
    let mut offset = start.offset;
    let rows = to_rows(keys, standings, stakes, &offset, count);
    let mut state = Rows {
        rows,
        total: start.total,
    };
    let mut k: u8 = 0;
    while k < 3 {
        k += 1;
        state = state.tier(count, k);
    }
    let mut same_keys = [0u64; MOST_CUSTOMERS];
    let mut same_standings = [0u8; MOST_CUSTOMERS];
    let mut same_stakes = [0u32; MOST_CUSTOMERS];
    let worked = state.rows;
    to_columns(
        worked,
        count,
        &mut same_keys,
        &mut same_standings,
        &mut same_stakes,
        &mut offset,
    );
    Cascade {
        offset,
        total: state.total,
    }
}
