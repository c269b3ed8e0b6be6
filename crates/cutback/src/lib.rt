// The lots that are cut at each seat of a customer over the position limit: Articles 34 and 52 (2) 3, as request [13] has them.
#![tactic(auto)]

ghost use Rattle.std.specs.Prelude.{◌≡◌, map, length};
ghost use Rattle.rules.specs.Answer.{fitted};
ghost use Rattle.laws.specs.Sums.{up_to};
ghost use Rattle.answers.specs.Answered.{Answered};
ghost use Rattle.cutback.specs.Limit.{tons, in_metal, some_tons};
ghost use Rattle.cutback.specs.Lines.{codes_in, codes_ahead};
ghost use Rattle.cutback.specs.Judge.{grams_bad, count_bad, judge, answer_of};
ghost use Rattle.cutback.specs.Walk.{early, Judged};
ghost use Rattle.cutback.specs.Keyed.{cut_at, Held};

use answers::Answer;
use refusal::CutRule;
pub use rules::MOST_SEATS;
use rules::refusal::Rule;

mod refusal;
mod seats;
mod walk;

use seats::{put_cuts, sum_lots};
use walk::{ByLine, BySize, Codes, read_codes};

// A metric ton in grams, which is also the heaviest lot.
const TON: u64 = 1_000_000;

// Article 34, in metric tons, where the metal is known.
fn by_metal(metal: &[u8], gold: u64, silver: u64) -> Option<u64>
    ensures { result ≡ in_metal metal.now gold silver }
{
    if command::is(metal, b"gold") {
        Some(gold)
    } else if command::is(metal, b"silver") {
        Some(silver)
    } else {
        None
    }
}

// And by the customer's type.
#[tactic(auto, unfolding(crate::specs::Limit::tons))]
fn limit_of(kind: &[u8], metal: &[u8]) -> Option<u64>
    ensures { result ≡ some_tons (tons kind.now metal.now) }
{
    if command::is(kind, b"corporate") {
        by_metal(metal, 2, 80)
    } else if command::is(kind, b"individual") {
        by_metal(metal, 1, 20)
    } else {
        None
    }
}

fn grams_bad(grams: u64) -> bool
    ensures { result ≡ grams_bad grams }
{
    grams == 0 || TON < grams
}

fn count_bad(count: usize) -> bool
    ensures { result ≡ count_bad count }
{
    count == 0 || MOST_SEATS < count
}

// The limit and how many codes there are, where no rule before that of the lots is broken.
fn early(
    tons: Option<u64>,
    grams: u64,
    read: Option<usize>,
    lots: usize,
) -> Result<(u64, usize), CutRule>
    ensures { result ≡ early tons grams read lots }
{
    let limit = tons.ok_or(CutRule::Unknown)?;
    if grams_bad(grams) {
        return Err(CutRule::BadGrams);
    }
    let codes = read.ok_or(CutRule::BadCode)?;
    if codes < lots {
        return Err(CutRule::BadCode);
    }
    if count_bad(codes) {
        return Err(CutRule::BadCount);
    }
    Ok((limit, codes))
}

// 11, or the cuts in the first of the lent places.
fn show(keys: &[u64], lots: &[u64], over: u64, cuts: &mut [u64]) -> Answer
    requires { Held keys.now lots.now }
    ensures { Answered (fitted (length cuts.old) (map (cut_at keys.now lots.now over) (up_to (length lots.now)))) result cuts.old cuts.new }
{
    if cuts.len() < lots.len() {
        return Answer::refused(Rule::NoRoom.number(), lots.len());
    }
    put_cuts(keys, lots, over, cuts);
    Answer::accepted(lots.len())
}

// The keys of the codes, and the lots held above what may stay; or the first rule that is broken.
fn over_limit<'a, C: Codes<'a>>(
    kind: &[u8],
    metal: &[u8],
    grams: u64,
    codes: C,
    lots: &[u64],
    keys: &mut [u64; MOST_SEATS],
) -> Result<u64, CutRule>
    ensures { Judged kind.now metal.now grams (C.codes codes) lots.now keys.new result }
{
    let read = read_codes(codes, keys);
    let (limit, count) = early(limit_of(kind, metal), grams, read, lots.len())?;
    let Some(held) = sum_lots(lots) else {
        return Err(CutRule::BadLots);
    };
    if lots.len() < count {
        return Err(CutRule::BadLots);
    }
    Ok(held.saturating_sub(limit * TON / grams))
}

// The seats by their codes, however these stand.
fn cut_in<'a, C: Codes<'a>>(
    kind: &[u8],
    metal: &[u8],
    grams: u64,
    codes: C,
    lots: &[u64],
    cuts: &mut [u64],
) -> Answer
    ensures { Answered (answer_of (length cuts.old) (judge kind.now metal.now grams (C.codes codes) lots.now)) result cuts.old cuts.new }
{
    let mut keys = [0u64; MOST_SEATS];
    match over_limit(kind, metal, grams, codes, lots, &mut keys) {
        Ok(over) => show(&keys, lots, over, cuts),
        Err(rule) => Answer::refused(rule.number(), 0),
    }
}

// Type, metal, the grams in one lot, and the seats: their codes one behind the other, the sizes of the codes, and their lots. The answer, and in
// the first of the lent places the lots cut at each seat where the call is accepted.
pub fn cut(
    kind: &[u8],
    metal: &[u8],
    grams: u64,
    codes: &[u8],
    sizes: &[u64],
    lots: &[u64],
    cuts: &mut [u64],
) -> Answer
    ensures { Answered (answer_of (length cuts.old) (judge kind.now metal.now grams (codes_in sizes.now codes.now) lots.now)) result cuts.old cuts.new }
{
    cut_in(
        kind,
        metal,
        grams,
        BySize { text: codes, sizes },
        lots,
        cuts,
    )
}

// The same, where each code stands before the first blank of a line.
pub fn cut_lines(
    kind: &[u8],
    metal: &[u8],
    grams: u64,
    lines: &[u8],
    lots: &[u64],
    cuts: &mut [u64],
) -> Answer
    ensures { Answered (answer_of (length cuts.old) (judge kind.now metal.now grams (codes_ahead lines.now) lots.now)) result cuts.old cuts.new }
{
    cut_in(kind, metal, grams, ByLine { text: lines }, lots, cuts)
}
