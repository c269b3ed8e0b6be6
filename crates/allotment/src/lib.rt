// The call: a book and a lent buffer in; a number, a place and a length out.
#![tactic(auto)]

ghost use Rattle.std.specs.Prelude.{◌≡◌, ◌-◌, ◌≤◌, length};
ghost use Rattle.rules.specs.Book.{judge};
ghost use Rattle.rules.specs.Answer.{fitted, answer};
ghost use Rattle.rules.specs.Report.{listing};
ghost use Rattle.answers.specs.Answered.{Answered};
ghost use Rattle.cascade.specs.Columns.{columns};
ghost use Rattle.cascade.specs.State.{Steady};
ghost use Rattle.report.specs.Sheet.{sheet, report_bytes, Placed};
ghost use Rattle.allotment.specs.Listed.{Listed, Judged};
ghost use Rattle.allotment.specs.Worked.{listing_room, report_room, at_first, closed_of};

use answers::Answer;
use cascade::Cascade;
use rules::{MOST_CUSTOMERS, refusal};

// A buffer that every listing fits: 256 lines of at most 26 bytes, and at most 33 before them.
pub const LISTING_ROOM: usize = 8_192;

// A buffer that every report fits: 256 customers of at most 129 bytes, and at most 26 before them.
pub const REPORT_ROOM: usize = 33_050;

// What the cascade leaves: each customer's offset, the total and the residue.
#[derive(Drop)]
pub struct Closed {
    pub offset: [u32; MOST_CUSTOMERS],
    pub total: u64,
    pub residue: u64,
}

// `owed` less `total`, and nothing where that is more.
fn less(owed: u64, total: u64) -> u64
    ensures { result ≡ owed - total }
{
    if total < owed { owed - total } else { 0 }
}

// The cascade over the customers in the columns, or in rows made of them. Columns take less time and stack (docs/BENCHMARKS.md).
// Who calls it has read the roll before, as a call of its own: what one of the two has on the stack the other does not pay for.
pub fn close(keys: &[u64], standings: &[u8], stakes: &[u32], count: usize, in_rows: bool) -> Closed
    requires { Steady 0 (columns keys.now standings.now stakes.now count) at_first }
    ensures { result ≡ closed_of (columns keys.now standings.now stakes.now count) }
{
    let owed = cascade::staked(standings, stakes, count, 0);
    let start = Cascade {
        offset: [0u32; MOST_CUSTOMERS],
        total: 0,
    };
    let end = cascade::run(start, keys, standings, stakes, count, owed, in_rows);
    let total = end.total;
    let offset = end.offset;
    Closed {
        offset: offset,
        total: total,
        residue: less(owed, total),
    }
}

// The report at the front of a lent buffer that has room for it.
fn write_lines(
    book: &[u8],
    starts: &[u16],
    standings: &[u8],
    offset: &[u32],
    count: usize,
    total: u64,
    residue: u64,
    long: bool,
    report: &mut [u8],
) -> Answer
    requires fact_1 { Placed book.now starts.now standings.now offset.now count long }
    requires fact_2 { length (report_bytes (sheet book.now starts.now standings.now offset.now count total residue)) ≤ length report.old }
    ensures { Answered (fitted (length report.old) (report_bytes (sheet book.now starts.now standings.now offset.now count total residue))) result report.old report.new }
{
    let length = report::put_sheet(
        report, book, starts, standings, offset, count, total, residue, long, false,
    );
    Answer {
        number: refusal::ACCEPTED,
        place: 0,
        length: length as u64,
    }
}

// 11, or the report at the front of the lent buffer. Who is in a tier is net long, or net short, by `long`: on the side that is not locked.
// Where the buffer is one that every report fits, the length needed is not worked out first: each customer's seats are divided once.
fn report_lines(
    book: &[u8],
    starts: &[u16],
    standings: &[u8],
    offset: &[u32],
    count: usize,
    total: u64,
    residue: u64,
    long: bool,
    report: &mut [u8],
) -> Answer
    requires fact_1 { Placed book.now starts.now standings.now offset.now count long }
    requires fact_2 { length (report_bytes (sheet book.now starts.now standings.now offset.now count total residue)) ≤ report_room }
    ensures { Answered (fitted (length report.old) (report_bytes (sheet book.now starts.now standings.now offset.now count total residue))) result report.old report.new }
{
    if REPORT_ROOM <= report.len() {
        return write_lines(
            book, starts, standings, offset, count, total, residue, long, report,
        );
    }
    let needed = report::report_length(
        book, starts, standings, offset, count, total, residue, long,
    );
    if report.len() < needed {
        return Answer {
            number: refusal::NO_ROOM,
            place: needed as u64,
            length: 0,
        };
    }
    write_lines(
        book, starts, standings, offset, count, total, residue, long, report,
    )
}

// A book and a lent buffer: the answer, and the report at the front of the buffer where the book is accepted. All else in the buffer
// is as it was, and all of it on a refusal. Whether the cascade works in rows changes nothing of it.
pub fn allot_in(book: &[u8], report: &mut [u8], in_rows: bool) -> Answer
    ensures { Answered (answer book.now (length report.old)) result report.old report.new }
{
    let mut keys = [0u64; MOST_CUSTOMERS];
    let mut starts = [0u16; MOST_CUSTOMERS];
    let mut standings = [0u8; MOST_CUSTOMERS];
    let mut stakes = [0u32; MOST_CUSTOMERS];
    let roll = roll::read_roll(book, &mut keys, &mut starts, &mut standings, &mut stakes);
    let refused = roll.refusal;
    if refused.number != refusal::ACCEPTED {
        return Answer {
            number: refused.number,
            place: refused.place as u64,
            length: 0,
        };
    }
    let count = roll.count;
    let closed = close(&keys, &standings, &stakes, count, in_rows);
    let offset = closed.offset;
    report_lines(
        book,
        &starts,
        &standings,
        &offset,
        count,
        closed.total,
        closed.residue,
        !roll.down,
        report,
    )
}

// The same in columns.
pub fn allot(book: &[u8], report: &mut [u8]) -> Answer
    ensures { Answered (answer book.now (length report.old)) result report.old report.new }
{
    allot_in(book, report, false)
}

// What a listing says: the book's number and place, and how many bytes of the buffer it takes.
#[derive(Clone, Copy)]
pub struct Listing {
    pub number: u64,
    pub place: u64,
    pub length: usize,
}

// The listing of a book, at the front of a buffer that is always large enough.
pub fn list(book: &[u8], out: &mut [u8]) -> Listing
    requires { listing_room ≤ length out.old }
    ensures listed { Listed (listing book.now) out.old out.new result.length }
    ensures judged { Judged (judge book.now) result.number result.place }
{
    let mut keys = [0u64; MOST_CUSTOMERS];
    let mut starts = [0u16; MOST_CUSTOMERS];
    let mut standings = [0u8; MOST_CUSTOMERS];
    let mut stakes = [0u32; MOST_CUSTOMERS];
    let roll = roll::read_roll(book, &mut keys, &mut starts, &mut standings, &mut stakes);
    let stopped = roll.refusal;
    if stopped.number != refusal::ACCEPTED {
        return Listing {
            number: stopped.number,
            place: stopped.place as u64,
            length: printing::put_refusal(out, stopped.number, stopped.place as u64),
        };
    }
    let count = roll.count;
    let closed = close(&keys, &standings, &stakes, count, false);
    let offset = closed.offset;
    Listing {
        number: refusal::ACCEPTED,
        place: 0,
        length: report::put_sheet(
            out,
            book,
            &starts,
            &standings,
            &offset,
            count,
            closed.total,
            closed.residue,
            !roll.down,
            true,
        ),
    }
}
