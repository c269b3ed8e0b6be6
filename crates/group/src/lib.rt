// Reads a customer's group.
#![tactic(auto)]

ghost use Rattle.std.specs.Prelude.{◌≡◌, List, ℕ, ◌≤◌, drop};
ghost use Rattle.rules.specs.Fields.{fields_of};
ghost use Rattle.rules.specs.Book.{Customer, DueTrade, Open, after_c};
ghost use Rattle.rules.specs.Standing.{standing_at};
ghost use Rattle.rules.specs.Cascade.{offered_by, pending_by};
ghost use Rattle.laws.specs.Groups.{group_from};
ghost use Rattle.gain.specs.Ranges.{Ranged};
ghost use Rattle.fields.specs.Ranges.{Short};
ghost use Rattle.terms.specs.Ranges.{Sound};
ghost use Rattle.trades.specs.Walk.{newest_in};
ghost use Rattle.group.specs.Total.{Summed};
ghost use Rattle.group.specs.Group.{Holding, closed_at, group_at};
ghost use Rattle.positions.specs.Ranges.{Few};

use fields::Refusal;
use positions::PositionAt;
use rules::{Fen, Position, Standing, Terms, refusal};
use trades::TradesAt;

// A customer's group up to the field that closes it: the customer's standing, and the lots that it offers and has pending.
#[derive(Clone, Copy)]
pub enum GroupAt {
    Closed {
        place: usize,
        standing: Standing,
        offered: u32,
        pending: u32,
    },
    Refused(Refusal),
}

// "The whole net position is offered."
fn offered_by(standing: Standing, position: Position) -> u64
    ensures { result ≡ offered_by standing position }
{
    match standing {
        Standing::Pending => 0,
        Standing::Tier1 => gain::net_of(position).0,
        Standing::Tier2 => gain::net_of(position).0,
        Standing::Tier3 => gain::net_of(position).0,
        Standing::Neither => 0,
    }
}

fn pending_by(standing: Standing, position: Position) -> u64
    ensures { result ≡ pending_by standing position }
{
    match standing {
        Standing::Pending => gain::counted_pending(position).0,
        Standing::Tier1 => 0,
        Standing::Tier2 => 0,
        Standing::Tier3 => 0,
        Standing::Neither => 0,
    }
}

// The customer of a group that ends at a place, with this position and this total gain.
fn closed_at(terms: Terms, position: Position, place: usize, total: i64) -> GroupAt
    requires { Ranged terms position total }
    ensures { result ≡ closed_at (standing_at terms position total) position place }
{
    let standing = gain::standing_of(terms, position, total);
    let offered = offered_by(standing, position) as u32;
    let pending = pending_by(standing, position) as u32;
    GroupAt::Closed {
        place,
        standing,
        offered,
        pending,
    }
}

// The gain of the newest `need` lots on a side, whatever the order of the trades from a place on, of which all `opened` lots have this `gain`.
// Where all of them count, or none, nothing is read again.
fn total_gain(
    book: &[u8],
    decimals: usize,
    settlement: Fen,
    long: bool,
    first: usize,
    need: u64,
    opened: u64,
    gain: i64,
    ordered: bool,
) -> i64
    requires fact_1 { Short book.now }
    requires fact_2 { settlement.0 ≤ 9_999_999 }
    requires fact_3 { Summed decimals long settlement book.now first need opened gain ordered }
    ensures { result ≡ newest_in long settlement need book.now first }
{
    if need == 0 {
        return 0;
    }
    if opened == need {
        return gain;
    }
    if ordered {
        return gain - trades::oldest_gain(book, settlement, long, first, opened - need);
    }
    newest::newest_gain(book, settlement, long, first, need, opened)
}

// A customer's trades and what comes of them, where its seats are read and add up to this position; its C is at `place`.
fn group_of(book: &[u8], terms: Terms, place: usize, position: Position, first: usize) -> GroupAt
    requires fact_1 { Short book.now }
    requires fact_2 { Sound terms }
    requires fact_3 { Few 4_000_000 position }
    ensures { (c : Customer) → Holding position c → result ≡ group_at terms (group_from terms (Open DueTrade c) place first (fields_of (drop first book.now))) }
{
    let long = gain::net_long(position);
    match trades::read_trades(book, terms.decimals, terms.settlement, long, first) {
        TradesAt::Closed {
            place: at,
            opened,
            gain,
            ordered,
        } => {
            let net = gain::net_of(position);
            if opened < net.0 {
                return GroupAt::Refused(Refusal {
                    number: refusal::UNCOVERED,
                    place,
                });
            }
            let total = total_gain(
                book,
                terms.decimals,
                terms.settlement,
                long,
                first,
                net.0,
                opened,
                gain,
                ordered,
            );
            closed_at(terms, position, at, total)
        }
        TradesAt::Refused(r) => GroupAt::Refused(r),
    }
}

// A customer's group from the field after its C on, which is at `place`.
pub fn read_group(book: &[u8], terms: Terms, place: usize, at: usize) -> GroupAt
    requires fact_1 { Short book.now }
    requires fact_2 { Sound terms }
    ensures { (code : List ℕ) → result ≡ group_at terms (group_from terms (after_c code) place at (fields_of (drop at book.now))) }
{
    match positions::read_seats(book, terms, at) {
        PositionAt::Read { position, next } => group_of(book, terms, place, position, next),
        PositionAt::Refused(r) => GroupAt::Refused(r),
    }
}
