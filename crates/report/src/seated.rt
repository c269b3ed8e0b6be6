// The fields of a customer's seats, which stand in the book from a place on: how many bytes they take, and the writing of them.
ghost use Rattle.std.specs.Prelude.{◌≡◌, ◌≤◌, length};
ghost use Rattle.laws.specs.Seats.{SaneSeats};
ghost use Rattle.seats.specs.Dealt.{seats_at, Due};
ghost use Rattle.writing.specs.Written.{Room, Wrote};
ghost use Rattle.report.specs.Sheet.{each_bytes, seats_bytes};

use rules::{MOST_SEATS, Standing};
use seats::SeatAt;

// How many bytes the seats take with these lots: at most 38 each, so that the sum fits.
fn each_length(book: &[u8], place: usize, lots: &[u64; MOST_SEATS]) -> usize
    requires { SaneSeats (seats_at book.now place) }
    ensures { (result ≡ length (each_bytes (seats_at book.now place) lots.now)) × (result ≤ 152) }
{
    let mut at = place;
    let mut n: usize = 0;
    let mut i: usize = 0;
    while i < MOST_SEATS {
        let SeatAt::Found(seat) = seats::next_seat(book, at) else {
            return n;
        };
        n += entries::seat_length(seat.end - seat.start, lots[i]);
        at = seat.next;
        i += 1;
    }
    n
}

// An only seat has all of the offset, and nothing is divided.
pub fn seats_length(book: &[u8], place: usize, standing: Standing, long: bool, offset: u64) -> usize
    requires { Due (seats_at book.now place) standing long offset }
    ensures { (result ≡ length (seats_bytes standing long offset (seats_at book.now place))) × (result ≤ 152) }
{
    match seats::only_seat(book, place) {
        SeatAt::Found(seat) => entries::seat_length(seat.end - seat.start, offset),
        SeatAt::NoSeat => {
            let lots = seats::seat_lots(book, place, standing, long, offset);
            each_length(book, place, &lots)
        }
    }
}

// Writes the seats with these lots.
fn put_each(out: &mut [u8], at: usize, book: &[u8], place: usize, lots: &[u64; MOST_SEATS]) -> usize
    requires sane_seats { SaneSeats (seats_at book.now place) }
    requires room { Room at (each_bytes (seats_at book.now place) lots.now) out.old }
    ensures { Wrote at (each_bytes (seats_at book.now place) lots.now) out.old out.new result }
{
    let mut end = at;
    let mut next = place;
    let mut i: usize = 0;
    while i < MOST_SEATS {
        let SeatAt::Found(seat) = seats::next_seat(book, next) else {
            return end;
        };
        let from = seat.start;
        let to = seat.end;
        end = entries::put_seat(out, end, &book[from..to], lots[i]);
        next = seat.next;
        i += 1;
    }
    end
}

pub fn put_seats(
    out: &mut [u8],
    at: usize,
    book: &[u8],
    place: usize,
    standing: Standing,
    long: bool,
    offset: u64,
) -> usize
    requires due { Due (seats_at book.now place) standing long offset }
    requires room { Room at (seats_bytes standing long offset (seats_at book.now place)) out.old }
    ensures { Wrote at (seats_bytes standing long offset (seats_at book.now place)) out.old out.new result }
{
    match seats::only_seat(book, place) {
        SeatAt::Found(seat) => {
            let from = seat.start;
            let to = seat.end;
            entries::put_seat(out, at, &book[from..to], offset)
        }
        SeatAt::NoSeat => {
            let lots = seats::seat_lots(book, place, standing, long, offset);
            put_each(out, at, book, place, &lots)
        }
    }
}
