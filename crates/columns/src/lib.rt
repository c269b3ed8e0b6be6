// The call for a viewer that reads column by column: a book and four lent runs in; a number, a place and a length out.
#![tactic(auto)]

ghost use Rattle.std.specs.Prelude.{◌≡◌, min};
ghost use Rattle.rules.specs.Answer.{fitted};
ghost use Rattle.cascade.specs.Columns.{offered_as, pending_as};
ghost use Rattle.columns.specs.View.{runs, places_of, viewed, Viewed};
ghost use Rattle.columns.specs.Shown.{shown_in, Columned, over, Roomy};

use answers::Answer;
use rules::{MOST_CUSTOMERS, Standing, lesser, refusal};

// What of a stake is offered: all of it in a tier.
fn offered_of(standing: Standing, stake: u32) -> u64
    ensures { result ≡ offered_as standing stake }
{
    match standing {
        Standing::Pending => 0,
        Standing::Tier1 => stake as u64,
        Standing::Tier2 => stake as u64,
        Standing::Tier3 => stake as u64,
        Standing::Neither => 0,
    }
}

// What of a stake was pending before the cascade.
fn pending_of(standing: Standing, stake: u32) -> u64
    ensures { result ≡ pending_as standing stake }
{
    match standing {
        Standing::Pending => stake as u64,
        Standing::Tier1 => 0,
        Standing::Tier2 => 0,
        Standing::Tier3 => 0,
        Standing::Neither => 0,
    }
}

// Puts each customer's letter, what it offers, what it had pending and what it has offset into the runs, at the customer's place.
fn put_runs(
    bytes: &[u8],
    stakes: &[u32],
    offset: &[u32],
    count: usize,
    standings: &mut [u8],
    offered: &mut [u64],
    pending: &mut [u64],
    offsets: &mut [u64],
)
    requires columned { Columned bytes.now stakes.now offset.now count }
    requires roomy { Roomy count (runs standings.old offered.old pending.old offsets.old) }
    ensures { runs standings.new offered.new pending.new offsets.new ≡ over bytes.now stakes.now offset.now count (runs standings.old offered.old pending.old offsets.old) }
{
    let mut i: usize = 0;
    while i < count {
        let standing = report::standing_of(bytes[i]);
        let stake = stakes[i];
        standings[i] = writing::letter_of(standing);
        offered[i] = offered_of(standing, stake);
        pending[i] = pending_of(standing, stake);
        offsets[i] = offset[i] as u64;
        i += 1;
    }
}

// The places that all of four runs have.
fn places(a: usize, b: usize, c: usize, d: usize) -> u64
    ensures { result ≡ min (min a b) (min c d) }
{
    lesser(lesser(a as u64, b as u64), lesser(c as u64, d as u64))
}

// 11, or the customers in the first places of the lent runs.
fn show(
    bytes: &[u8],
    stakes: &[u32],
    offset: &[u32],
    count: usize,
    standings: &mut [u8],
    offered: &mut [u64],
    pending: &mut [u64],
    offsets: &mut [u64],
) -> Answer
    requires { Columned bytes.now stakes.now offset.now count }
    ensures { Viewed (λ run. fitted (places_of (runs standings.old offered.old pending.old offsets.old)) (run (shown_in bytes.now stakes.now offset.now count))) (runs standings.old offered.old pending.old offsets.old) (runs standings.new offered.new pending.new offsets.new) result }
{
    let room = places(standings.len(), offered.len(), pending.len(), offsets.len());
    let needed = count as u64;
    if room < needed {
        return Answer {
            number: refusal::NO_ROOM,
            place: needed,
            length: 0,
        };
    }
    put_runs(
        bytes, stakes, offset, count, standings, offered, pending, offsets,
    );
    Answer {
        number: refusal::ACCEPTED,
        place: 0,
        length: needed,
    }
}

// A book and four lent runs: the answer, and in the first places of each run the book's customers where it is accepted. All else in the
// runs is as it was, and all of it on a refusal.
pub fn columns(
    book: &[u8],
    standings: &mut [u8],
    offered: &mut [u64],
    pending: &mut [u64],
    offsets: &mut [u64],
) -> Answer
    ensures { Viewed (viewed book.now (places_of (runs standings.old offered.old pending.old offsets.old))) (runs standings.old offered.old pending.old offsets.old) (runs standings.new offered.new pending.new offsets.new) result }
{
    let mut keys = [0u64; MOST_CUSTOMERS];
    let mut starts = [0u16; MOST_CUSTOMERS];
    let mut bytes = [0u8; MOST_CUSTOMERS];
    let mut stakes = [0u32; MOST_CUSTOMERS];
    let roll = roll::read_roll(book, &mut keys, &mut starts, &mut bytes, &mut stakes);
    let refused = roll.refusal;
    if refused.number != refusal::ACCEPTED {
        return Answer {
            number: refused.number,
            place: refused.place as u64,
            length: 0,
        };
    }
    let count = roll.count;
    let closed = allotment::close(&keys, &bytes, &stakes, count, false);
    let offset = closed.offset;
    show(
        &bytes, &stakes, &offset, count, standings, offered, pending, offsets,
    )
}
