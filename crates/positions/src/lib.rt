// Reads a customer's seats, and adds up their positions.
#![tactic(auto)]

ghost use Rattle.std.specs.Prelude.{◌≡◌, ◌≤◌, take, drop};
ghost use Rattle.rules.specs.Fields.{fields_of};
ghost use Rattle.rules.specs.Limits.{most_seats};
ghost use Rattle.rules.specs.Book.{overdrawn};
ghost use Rattle.positions.specs.Position.{position_of};
ghost use Rattle.positions.specs.Seats.{key_from, begins_seat, plus, seat_of, seats_of};
ghost use Rattle.positions.specs.Ranges.{Few};

use codes::Code;
use fields::{FigureAt, Found, Refusal};
use rules::{Lots, MOST_SEATS, Position, Terms, refusal, tag};

#[derive(Clone, Copy)]
pub enum PositionAt {
    Read { position: Position, next: usize },
    Refused(Refusal),
}

// The key of a seat's code, which its customer has at no other seat, and the place after its field.
#[derive(Clone, Copy)]
pub enum KeyAt {
    New { key: u64, next: usize },
    Refused(Refusal),
}

// A seat: the key of its code, its position, and the place after it.
#[derive(Clone, Copy)]
pub enum SeatAt {
    Read {
        key: u64,
        position: Position,
        next: usize,
    },
    Refused(Refusal),
}

// 8: "Q exceeds K when locked down, or H when locked up"
fn overdrawn_by(terms: Terms, position: Position) -> bool
    ensures { result ≡ overdrawn terms position }
{
    if terms.down {
        position.long.0 < position.unfilled.0
    } else {
        position.short.0 < position.unfilled.0
    }
}

// K, H and Q from a place on.
fn read_position(book: &[u8], terms: Terms, at: usize) -> PositionAt
    ensures { result ≡ position_of book.now terms at }
{
    let k = fields::held_at(book, at, tag::K);
    let FigureAt::Value {
        number: long,
        next: at_h,
    } = k
    else {
        return PositionAt::Refused(fields::refusal_in(k));
    };
    let h = fields::held_at(book, at_h, tag::H);
    let FigureAt::Value {
        number: short,
        next: at_q,
    } = h
    else {
        return PositionAt::Refused(fields::refusal_in(h));
    };
    let q = fields::held_at(book, at_q, tag::Q);
    let FigureAt::Value {
        number: unfilled,
        next,
    } = q
    else {
        return PositionAt::Refused(fields::refusal_in(q));
    };
    let position = Position {
        long: Lots(long),
        short: Lots(short),
        unfilled: Lots(unfilled),
    };
    if overdrawn_by(terms, position) {
        return PositionAt::Refused(Refusal {
            number: refusal::OVERDRAWN,
            place: at_q,
        });
    }
    PositionAt::Read { position, next }
}

fn no_key(number: u64, place: usize) -> KeyAt
    ensures { result ≡ KeyAt.Refused (record { number = number; place = place }) }
{
    KeyAt::Refused(Refusal { number, place })
}

// 2, 3, 5 and 13 at an I, where `count` seats of this customer were read before.
fn key_at(book: &[u8], keys: &[u64; MOST_SEATS], count: usize, at: usize) -> KeyAt
    requires { count ≤ most_seats }
    ensures { result ≡ key_from (take count keys.now) at (fields_of (drop at book.now)) }
{
    let Found::Field { tag, start, end } = fields::field_at(book, at) else {
        return no_key(refusal::CUT_SHORT, at);
    };
    if tag != tag::I {
        return no_key(refusal::MISPLACED, at);
    }
    match codes::read_code(&book[start..end]) {
        Code::Key(key) => {
            if codes::given(keys, count, key) {
                return no_key(refusal::SEAT_TWICE, at);
            }
            KeyAt::New { key, next: end }
        }
        Code::Malformed => no_key(refusal::MALFORMED, at),
    }
}

// A seat at a place: I, K, H and Q.
fn read_seat(book: &[u8], terms: Terms, keys: &[u64; MOST_SEATS], count: usize, at: usize) -> SeatAt
    requires { count ≤ most_seats }
    ensures { result ≡ seat_of book.now terms (take count keys.now) at }
{
    match key_at(book, keys, count, at) {
        KeyAt::New { key, next: held } => match read_position(book, terms, held) {
            PositionAt::Read { position, next } => SeatAt::Read {
                key,
                position,
                next,
            },
            PositionAt::Refused(r) => SeatAt::Refused(r),
        },
        KeyAt::Refused(r) => SeatAt::Refused(r),
    }
}

// Whether a seat begins at a place.
fn begins_seat(book: &[u8], at: usize) -> bool
    ensures { result ≡ begins_seat (fields_of (drop at book.now)) }
{
    match fields::field_at(book, at) {
        Found::Field {
            tag,
            start: _,
            end: _,
        } => tag == tag::I,
        Found::Short => false,
    }
}

fn add(a: Position, b: Position) -> Position
    requires { (Few 3_000_000 a) × (Few 1_000_000 b) }
    ensures { result ≡ plus a b }
{
    Position {
        long: Lots(a.long.0 + b.long.0),
        short: Lots(a.short.0 + b.short.0),
        unfilled: Lots(a.unfilled.0 + b.unfilled.0),
    }
}

// A customer's seats from a place on, and the place after them: their positions added up.
pub fn read_seats(book: &[u8], terms: Terms, first: usize) -> PositionAt
    ensures { result ≡ seats_of book.now terms first }
{
    let mut keys = [0u64; MOST_SEATS];
    let mut sum = Position {
        long: Lots(0),
        short: Lots(0),
        unfilled: Lots(0),
    };
    let mut count: usize = 0;
    let mut at = first;
    while count < MOST_SEATS {
        match read_seat(book, terms, &keys, count, at) {
            SeatAt::Read {
                key,
                position,
                next,
            } => {
                keys[count] = key;
                sum = add(sum, position);
                count += 1;
                at = next;
            }
            SeatAt::Refused(r) => return PositionAt::Refused(r),
        }
        if !begins_seat(book, at) {
            return PositionAt::Read {
                position: sum,
                next: at,
            };
        }
    }
    PositionAt::Read {
        position: sum,
        next: at,
    }
}
