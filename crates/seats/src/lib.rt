// A customer's seats, read again where they stand in the book, and its offset divided over them.
#![tactic(auto)]

ghost use Rattle.std.specs.Prelude.{◌≡◌, true, ◌+◌, ◌≤◌, length, drop};
ghost use Rattle.rules.specs.Codes.{is_code};
ghost use Rattle.rules.specs.Fields.{fields_of};
ghost use Rattle.rules.specs.Seats.{seat_weight, held_on};
ghost use Rattle.laws.specs.SeatFields.{lots_in};
ghost use Rattle.laws.specs.Keys.{key_of};
ghost use Rattle.laws.specs.Seats.{SaneSeats};
ghost use Rattle.seats.specs.Dealt.{seats_at, dealt, in_places, Due, Weighed};
ghost use Rattle.seats.specs.Places.{between, value_in, seat_in, seat_from, only_from, Ordered};

use codes::Code;
use fields::Found;
use rules::{Figure, MOST_SEATS, Standing, tag};

// Where a seat stands in the book: its code from `start` to `end`, where its K begins; its H begins at `short`, its Q at `unfilled`, and
// its Q ends at `next`.
#[derive(Clone, Copy)]
pub struct Places {
    pub start: usize,
    pub end: usize,
    pub short: usize,
    pub unfilled: usize,
    pub next: usize,
}

#[derive(Clone, Copy)]
pub enum SeatAt {
    Found(Places),
    NoSeat,
}

// The seat that begins at a place. Its figures are not read: who divides nothing needs none.
pub fn next_seat(book: &[u8], at: usize) -> SeatAt
    ensures { result ≡ seat_from at (fields_of (drop at book.now)) }
{
    let Found::Field { tag, start, end } = fields::field_at(book, at) else {
        return SeatAt::NoSeat;
    };
    if tag != tag::I {
        return SeatAt::NoSeat;
    }
    let Found::Field {
        tag: _,
        start: _,
        end: short,
    } = fields::field_at(book, end)
    else {
        return SeatAt::NoSeat;
    };
    let Found::Field {
        tag: _,
        start: _,
        end: unfilled,
    } = fields::field_at(book, short)
    else {
        return SeatAt::NoSeat;
    };
    let Found::Field {
        tag: _,
        start: _,
        end: next,
    } = fields::field_at(book, unfilled)
    else {
        return SeatAt::NoSeat;
    };
    SeatAt::Found(Places {
        start,
        end,
        short,
        unfilled,
        next,
    })
}

// The seat that stands from a place on, where there is no other behind it.
pub fn only_seat(book: &[u8], at: usize) -> SeatAt
    ensures { result ≡ only_from book.now (seat_from at (fields_of (drop at book.now))) }
{
    let SeatAt::Found(seat) = next_seat(book, at) else {
        return SeatAt::NoSeat;
    };
    match next_seat(book, seat.next) {
        SeatAt::Found(_) => SeatAt::NoSeat,
        SeatAt::NoSeat => SeatAt::Found(seat),
    }
}

// The lots that a field says, which begins at a place and ends at another.
fn lots_in(book: &[u8], from: usize, to: usize) -> u64
    requires { (from + 3 ≤ to) × (to ≤ length book.now) }
    ensures { result ≡ lots_in (value_in book.now from to) }
{
    match figures::read_held(&book[from + 3..to]) {
        Figure::Value(lots) => lots,
        Figure::Comma => 0,
        Figure::Malformed => 0,
    }
}

fn held_on(book: &[u8], seat: Places, long: bool) -> u64
    requires { Ordered book.now seat }
    ensures { result ≡ held_on long (seat_in book.now seat).position }
{
    if long {
        lots_in(book, seat.end, seat.short)
    } else {
        lots_in(book, seat.short, seat.unfilled)
    }
}

// "by Q for a P customer and by lots held on the net side for a tier customer"
fn weight_of(book: &[u8], seat: Places, standing: Standing, long: bool) -> u64
    requires { Ordered book.now seat }
    ensures { result ≡ seat_weight standing long (seat_in book.now seat) }
{
    match standing {
        Standing::Pending => lots_in(book, seat.unfilled, seat.next),
        Standing::Tier1 => held_on(book, seat, long),
        Standing::Tier2 => held_on(book, seat, long),
        Standing::Tier3 => held_on(book, seat, long),
        Standing::Neither => 0,
    }
}

fn key_of(book: &[u8], start: usize, end: usize) -> u64
    requires start_le_end { (start ≤ end) × (end ≤ length book.now) }
    requires end_value { is_code (between book.now start end) ≡ true }
    ensures { result ≡ key_of (between book.now start end) }
{
    match codes::read_code(&book[start..end]) {
        Code::Key(key) => key,
        Code::Malformed => 0,
    }
}

// How many seats there are, and the sum of their weights.
#[derive(Clone, Copy)]
struct Weights {
    count: usize,
    sum: u64,
}

// Puts the key and the weight of each seat that stands from a place on into the arrays.
fn weigh(
    book: &[u8],
    at: usize,
    standing: Standing,
    long: bool,
    keys: &mut [u64],
    lots: &mut [u64],
) -> Weights
    requires sane_seats { SaneSeats (seats_at book.now at) }
    requires in_bounds { (4 ≤ length keys.old) × (4 ≤ length lots.old) }
    ensures { Weighed (seats_at book.now at) (seat_weight standing long) keys.old keys.new lots.old lots.new result.count result.sum }
{
    let mut place = at;
    let mut count: usize = 0;
    let mut sum: u64 = 0;
    while count < MOST_SEATS {
        let SeatAt::Found(seat) = next_seat(book, place) else {
            return Weights { count, sum };
        };
        let weight = weight_of(book, seat, standing, long);
        keys[count] = key_of(book, seat.start, seat.end);
        lots[count] = weight;
        sum += weight;
        place = seat.next;
        count += 1;
    }
    Weights { count, sum }
}

// Each seat's lots, in the order of the seats: "The customer's offset is divided over its seats".
pub fn seat_lots(
    book: &[u8],
    at: usize,
    standing: Standing,
    long: bool,
    offset: u64,
) -> [u64; MOST_SEATS]
    requires { Due (seats_at book.now at) standing long offset }
    ensures { result ≡ in_places (dealt standing long offset (seats_at book.now at)) (seats_at book.now at) }
{
    let mut lots = [0u64; MOST_SEATS];
    if offset == 0 {
        return lots;
    }
    let mut keys = [0u64; MOST_SEATS];
    let all = weigh(book, at, standing, long, &mut keys, &mut lots);
    division::divide(&mut lots, &keys, all.count, offset, all.sum);
    lots
}
