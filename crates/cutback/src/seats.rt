// The seats by their keys and lots: which go before which, and what is cut at each.
ghost use Rattle.std.specs.Prelude.{◌≡◌, ◌≤◌, ◌<◌, length};
ghost use Rattle.laws.specs.Filled.{filled};
ghost use Rattle.cutback.specs.Keyed.{before_by, lots_before_at, cut_at, Held, Summed};

const MOST_LOTS: u64 = 1_000_000;

// The sum of all lots; none where a seat has too many.
pub fn sum_lots(lots: &[u64]) -> Option<u64>
    requires { length lots.now ≤ 4 }
    ensures { Summed lots.now result }
{
    let mut sum = 0;
    for held in lots {
        if MOST_LOTS < *held {
            return None;
        }
        sum += *held;
    }
    Some(sum)
}

// The larger seat goes first, and of two equal ones that of the smaller key.
fn goes_before(key: u64, lots: u64, other: u64, held: u64) -> bool
    ensures { result ≡ before_by key lots other held }
{
    held < lots || (held == lots && key < other)
}

// The lots of all seats that go before seat i.
fn lots_before(keys: &[u64], lots: &[u64], i: usize) -> u64
    requires { Held keys.now lots.now × (i < length lots.now) }
    ensures { result ≡ lots_before_at keys.now lots.now i }
{
    let mut sum = 0;
    for (key, held) in keys.iter().zip(lots) {
        if goes_before(*key, *held, keys[i], lots[i]) {
            sum += *held;
        }
    }
    sum
}

// What is cut at each seat, where so many lots are held above what may stay.
pub fn put_cuts(keys: &[u64], lots: &[u64], over: u64, cuts: &mut [u64])
    requires { Held keys.now lots.now × (length lots.now ≤ length cuts.old) }
    ensures { cuts.new ≡ filled (cut_at keys.now lots.now over) (length lots.now) cuts.old }
{
    for (i, held) in lots.iter().enumerate() {
        cuts[i] = (*held).min(over.saturating_sub(lots_before(keys, lots, i)));
    }
}
