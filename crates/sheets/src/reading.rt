// A sheet read into a book: its lines are judged first, so that nothing is written of a sheet that makes none.
ghost use Rattle.std.specs.Prelude.{◌≡◌, ◌≤◌, false, eqb, length, drop};
ghost use Rattle.rules.specs.Limits.{longest_book};
ghost use Rattle.days.specs.Lines.{lines_of};
ghost use Rattle.writing.specs.Written.{Wrote};
ghost use Rattle.sheets.specs.Read.{lines_from, read};
ghost use Rattle.sheets.specs.Sizes.{book_of};
ghost use Rattle.sheets.specs.Making.{Ready, Puts, Takes, Makes};

use crate::line::{Line, line_at};
use crate::putting::{put_four, put_one};
use crate::refusal::{Refusal, SheetRule};
use crate::sizing::size_lines;
use rules::tag;
use writing::put_three;

// Where the next field is written, and where the next line begins.
#[derive(Clone, Copy)]
pub struct Put {
    pub place: usize,
    pub next: usize,
}

// The bytes of the mark line.
const HEAD: usize = 6;

// The fields of a line that was judged.
fn put_line(out: &mut [u8], place: usize, sheet: &[u8], at: usize, mark: u8) -> Put
    requires { Ready mark sheet.now at place out.old }
    ensures { Puts mark sheet.now at place out.old out.new result }
{
    match line_at(sheet, at).unwrap() {
        Line::One { tag, end } => Put {
            place: put_one(out, place, tag, &sheet[at + 2..end], mark),
            next: end + 1,
        },
        Line::Four { tag, parts } => Put {
            place: put_four(out, place, sheet, at, tag, parts, mark),
            next: parts.end + 1,
        },
    }
}

// The book of the lines from a place on, which were judged.
fn put_lines(out: &mut [u8], sheet: &[u8], start: usize, mark: u8) -> usize
    requires { Takes mark sheet.now start out.old }
    ensures { Wrote 0 (book_of (lines_from mark 2 (lines_of (drop start sheet.now)))) out.old out.new result }
{
    let mut at = start;
    let mut place = 0;
    while at < sheet.len() {
        let line = put_line(out, place, sheet, at, mark);
        place = line.place;
        at = line.next;
    }
    put_three(out, place, tag::Z, 0, 0)
}

// The book of the lines behind the mark line.
fn make_lines(sheet: &[u8], mark: u8, book: &mut [u8]) -> Result<usize, Refusal>
    requires { (6 ≤ length sheet.now) × (length sheet.now ≤ longest_book) × (eqb 59 mark ≡ false) }
    ensures { Makes (lines_from mark 2 (lines_of (drop 6 sheet.now))) book.old book.new result }
{
    let length = size_lines(sheet, HEAD, mark)?;
    if book.len() < length {
        return Err(Refusal {
            rule: SheetRule::NoResult,
            place: 0,
        });
    }
    Ok(put_lines(book, sheet, HEAD, mark))
}

// The length of the book that a sheet makes, at the front of the buffer; nothing is written on a refusal.
pub fn make_book(sheet: &[u8], book: &mut [u8]) -> Result<usize, Refusal>
    ensures { Makes (read sheet.now) book.old book.new result }
{
    if rules::LONGEST_BOOK < sheet.len() {
        return Err(Refusal {
            rule: SheetRule::TooLong,
            place: 0,
        });
    }
    if sheet.starts_with(b"mark,\n") {
        return make_lines(sheet, b',', book);
    }
    if sheet.starts_with(b"mark.\n") {
        return make_lines(sheet, b'.', book);
    }
    Err(Refusal {
        rule: SheetRule::NoMark,
        place: 1,
    })
}
