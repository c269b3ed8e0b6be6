// The report and the listing of an accepted book: the codes stand in the book, and the rest in the customers' columns.
#![tactic(auto)]

mod seated;

ghost use Rattle.std.specs.Prelude.{◌≡◌, ◌-◌, ◌≤◌, ◌<◌, length, get_or};
ghost use Rattle.rules.specs.Report.{reported};
ghost use Rattle.cascade.specs.Columns.{standing_of};
ghost use Rattle.writing.specs.Written.{Room, Wrote};
ghost use Rattle.report.specs.Sheet.{line_from, sheet, front_bytes, line_bytes, sheet_bytes, report_bytes, Seated, Placed};

use rules::Standing;
use seated::{put_seats, seats_length};

// The standing of a byte.
pub fn standing_of(byte: u8) -> Standing
    ensures { result ≡ standing_of byte }
{
    match byte {
        0 => Standing::Pending,
        1 => Standing::Tier1,
        2 => Standing::Tier2,
        3 => Standing::Tier3,
        _ => Standing::Neither,
    }
}

// The size of a code, whose value starts at a place: the low byte of its field's length.
fn size_at(book: &[u8], start: usize) -> usize
    requires { (0 < start) × (start ≤ length book.now) }
    ensures { result ≡ get_or book.now (start - 1) 0 }
{
    book[start - 1] as usize
}

// How many bytes a customer takes in a report: at most 194, so that the sum of 256 fits.
fn line_length(book: &[u8], start: usize, standing: Standing, offset: u64, long: bool) -> usize
    requires { Seated book.now start standing offset long }
    ensures { (result ≡ length (reported (line_from book.now start standing offset))) × (result ≤ 194) }
{
    let size = size_at(book, start);
    let own = entries::reported_length(size, offset);
    own + seats_length(book, start + size, standing, long, offset)
}

// How many bytes the report takes. Who is in a tier is net long, or net short, by `long`.
pub fn report_length(
    book: &[u8],
    starts: &[u16],
    standings: &[u8],
    offset: &[u32],
    count: usize,
    total: u64,
    residue: u64,
    long: bool,
) -> usize
    requires { Placed book.now starts.now standings.now offset.now count long }
    ensures { result ≡ length (report_bytes (sheet book.now starts.now standings.now offset.now count total residue)) }
{
    let mut n = entries::head_length(total, residue);
    let mut i: usize = 0;
    while i < count {
        let standing = standing_of(standings[i]);
        n += line_length(book, starts[i] as usize, standing, offset[i] as u64, long);
        i += 1;
    }
    n
}

// What stands before the customers in a listing, or in a report.
fn put_front(out: &mut [u8], total: u64, residue: u64, listed: bool) -> usize
    requires { Room 0 (front_bytes listed total residue) out.old }
    ensures { Wrote 0 (front_bytes listed total residue) out.old out.new result }
{
    if listed {
        printing::put_printed_head(out, total, residue)
    } else {
        entries::put_head(out, total, residue)
    }
}

// A customer in a listing, or in a report.
fn put_line(
    out: &mut [u8],
    at: usize,
    book: &[u8],
    start: usize,
    standing: Standing,
    offset: u64,
    long: bool,
    listed: bool,
) -> usize
    requires seated { Seated book.now start standing offset long }
    requires room { Room at (line_bytes listed (line_from book.now start standing offset)) out.old }
    ensures { Wrote at (line_bytes listed (line_from book.now start standing offset)) out.old out.new result }
{
    let end = start + size_at(book, start);
    if listed {
        return printing::put_printed(out, at, &book[start..end], standing, offset);
    }
    let behind = entries::put_reported(out, at, &book[start..end], standing, offset);
    put_seats(out, behind, book, end, standing, long, offset)
}

// The listing or the report, from the front of the buffer on.
pub fn put_sheet(
    out: &mut [u8],
    book: &[u8],
    starts: &[u16],
    standings: &[u8],
    offset: &[u32],
    count: usize,
    total: u64,
    residue: u64,
    long: bool,
    listed: bool,
) -> usize
    requires placed { Placed book.now starts.now standings.now offset.now count long }
    requires room { Room 0 (sheet_bytes listed (sheet book.now starts.now standings.now offset.now count total residue)) out.old }
    ensures { Wrote 0 (sheet_bytes listed (sheet book.now starts.now standings.now offset.now count total residue)) out.old out.new result }
{
    let mut at = put_front(out, total, residue, listed);
    let mut i: usize = 0;
    while i < count {
        let start = starts[i] as usize;
        let standing = standing_of(standings[i]);
        at = put_line(
            out,
            at,
            book,
            start,
            standing,
            offset[i] as u64,
            long,
            listed,
        );
        i += 1;
    }
    at
}
