// What a refusal says in words: its number, its place, and the field there where it is a book's. The words stand in texts of lines, one line
// for each number or field, so that one function writes them all. Each text has a function of its own: it stands on the stack.
#![tactic(auto)]

ghost use Rattle.std.specs.Prelude.{◌≡◌, ◌+◌, ◌-◌, ◌≤◌, ◌<◌, length, drop};
ghost use Rattle.writing.specs.Written.{Room, Wrote};
ghost use Rattle.reasons.specs.Lines.{behind_lines, first_line, line_of};
ghost use Rattle.reasons.specs.Reason.{
  place_in,
  field_at,
  named,
  with_field,
  book_line,
  of_book,
  line_from,
  sheet,
  days,
  cuts,
  has_words,
  known,
  reason,
  why,
  said,
};

use printing::put_worded;
use rules::refusal::{self, Rule};
use writing::{put_byte, put_bytes};

// A buffer that the words of every refusal fit.
pub const WORDS_ROOM: usize = 128;

// Stays: a field is a number in the clauses of the public `field_at`, `put_reason` and `put_said`, and in the theorems on them.
// The number of tags that a book has, and the place of a byte that is none of them; also where there is no book.
pub const NO_TAG: usize = 14;

// The place of a field that begins behind the book.
const BEHIND: usize = 15;

// The line of a book that has ended where a field is due, behind those of its numbers.
const ENDED: usize = 14;

// The numbers of a book that name a field, and the last of its numbers.
const CUT_SHORT: u64 = Rule::CutShort as u64;

const MALFORMED: u64 = Rule::Malformed as u64;

const BOOK_LAST: u64 = Rule::SeatTwice as u64;

// The numbers of a sheet, of a list of days and of cutting back: the first of each, and the last.
const SHEET: u64 = 20;

const SHEET_LAST: u64 = 23;

const DAYS: u64 = 30;

const DAYS_LAST: u64 = 33;

const CUTS: u64 = 40;

const CUTS_LAST: u64 = 44;

// The line of what a number says away from place 0, behind those of all numbers.
const ELSEWHERE: usize = 4;

// Where the text goes on behind k lines.
pub fn behind_lines(text: &[u8], k: usize) -> usize
    ensures { (result ≤ length text.now) × (drop result text.now ≡ behind_lines k text.now) }
{
    let mut left = k;
    for (i, byte) in text.iter().enumerate() {
        if left == 0 {
            return i;
        }
        if *byte == b'\n' {
            left -= 1;
        }
    }
    text.len()
}

// Where the line ends that begins at `from`.
pub fn line_end(text: &[u8], from: usize) -> usize
    requires { from ≤ length text.now }
    ensures { result ≡ from + length (first_line (drop from text.now)) }
{
    let rest = &text[from..];
    from + rest
        .iter()
        .position(|byte| *byte == b'\n')
        .unwrap_or(rest.len())
}

pub fn put_line(out: &mut [u8], at: usize, text: &[u8], k: usize) -> usize
    requires { Room at (line_of k text.now) out.old }
    ensures { Wrote at (line_of k text.now) out.old out.new result }
{
    let from = behind_lines(text, k);
    let end = line_end(text, from);
    put_bytes(out, at, &text[from..end])
}

// The place of a byte among others.
fn place_in(byte: u8, all: &[u8]) -> usize
    ensures { result ≡ place_in byte all.now }
{
    all.iter()
        .position(|other| *other == byte)
        .unwrap_or(all.len())
}

// The field that begins at a place of the book, as a place among the tags.
pub fn field_at(book: &[u8], place: u64) -> usize
    ensures { result ≡ field_at book.now place }
{
    match book.get(place as usize) {
        Some(byte) => place_in(*byte, b"DXSLUVCIKHQBAZ"),
        None => BEHIND,
    }
}

fn names_field(number: u64, field: usize) -> bool
    ensures { result ≡ named number field }
{
    field < NO_TAG && matches!(number, CUT_SHORT..=MALFORMED)
}

// Words that name a field: what stands before the name, and the name.
#[tactic(auto, unfolding(crate::specs::Reason::with_field))]
fn put_named(out: &mut [u8], at: usize, number: usize, field: usize) -> usize
    requires { Room at (with_field number field) out.old }
    ensures { Wrote at (with_field number field) out.old out.new result }
{
    let name = put_line(
        out,
        at,
        b"\n\
          \n\
          the book ends before the end of \n\
          a tag that does not belong here: \n\
          a comma in \n\
          not of its form or range: \n",
        number,
    );
    put_line(
        out,
        name,
        b"the limit D\n\
          the decimals X\n\
          the settlement price S\n\
          the loss edge L\n\
          the tier 1 edge U\n\
          the tier 2 edge V\n\
          the customer code C\n\
          the seat code I\n\
          the lots held long K\n\
          the lots held short H\n\
          the unfilled lots Q\n\
          the bought trade B\n\
          the sold trade A\n\
          the end Z\n",
        field,
    )
}

// The line of the words that name no field.
fn book_line(number: u64, field: usize) -> usize
    ensures { result ≡ book_line number field }
{
    match (number, field) {
        (CUT_SHORT, BEHIND) => ENDED,
        _ => number as usize,
    }
}

// The words for a number of a book.
#[tactic(auto, unfolding(crate::specs::Reason::of_book))]
fn put_of_book(out: &mut [u8], at: usize, number: u64, field: usize) -> usize
    requires { Room at (of_book number field) out.old }
    ensures { Wrote at (of_book number field) out.old out.new result }
{
    if names_field(number, field) {
        return put_named(out, at, number as usize, field);
    }
    put_line(
        out,
        at,
        b"accepted\n\
          more than 60,000 bytes\n\
          the book ends before the end of a field\n\
          a byte that is no tag, or that follows Z\n\
          a comma in a figure\n\
          a value that is not of its form or range\n\
          the tier 1 edge U is not greater than the tier 2 edge V\n\
          this customer code was given before\n\
          the unfilled lots Q exceed the lots held on the locked side\n\
          this customer's opening trades on its net side sum to less than its net position\n\
          more than 256 customers\n\
          the report is longer than the buffer\n\
          this trade's price is above five times the settlement price S or below a fifth of it\n\
          this customer has a seat of this code already\n\
          the book ends where a field is due\n",
        book_line(number, field),
    )
}

// The line of a number in a text that begins with the words of `first`, where `split` says two things.
fn line_from(first: u64, split: u64, number: u64, place: u64) -> usize
    requires { first ≤ number }
    ensures { result ≡ line_from first split number place }
{
    if number == split && place != 0 {
        ELSEWHERE
    } else {
        (number - first) as usize
    }
}

// The words for a number of a sheet.
fn put_of_sheet(out: &mut [u8], at: usize, number: u64, place: u64) -> usize
    requires le_number { 20 ≤ number }
    requires room { Room at (line_of (line_from 20 20 number place) sheet) out.old }
    ensures { Wrote at (line_of (line_from 20 20 number place) sheet) out.old out.new result }
{
    let line = line_from(SHEET, SHEET, number, place);
    put_line(
        out,
        at,
        b"the mark is neither a comma nor a point\n\
          the other mark in a price, a rate or lots\n\
          a letter that begins no line, another number of parts, or no line feed\n\
          no room for the result\n\
          the first line is neither mark, nor mark.\n",
        line,
    )
}

// The words for a number of a list of days.
fn put_of_days(out: &mut [u8], at: usize, number: u64, place: u64) -> usize
    requires le_number { 30 ≤ number }
    requires room { Room at (line_of (line_from 30 33 number place) days) out.old }
    ensures { Wrote at (line_of (line_from 30 33 number place) days) out.old out.new result }
{
    let line = line_from(DAYS, DAYS_LAST, number, place);
    put_line(
        out,
        at,
        b"more than 2,001 line feeds\n\
          a zero price or zero open interest\n\
          a letter that is no mark\n\
          the first line is neither gold nor silver\n\
          a line that is not of a day's form\n",
        line,
    )
}

// The words for a number of cutting back.
fn put_of_cuts(out: &mut [u8], at: usize, number: u64) -> usize
    requires le_number { 40 ≤ number }
    requires room { Room at (line_of (number - 40) cuts) out.old }
    ensures { Wrote at (line_of (number - 40) cuts) out.old out.new result }
{
    let line = number - CUTS;
    put_line(
        out,
        at,
        b"the customer's type or the metal is unknown\n\
          the grams in one lot are not a whole figure from 1 to 1,000,000\n\
          a seat code is malformed or given twice\n\
          no seat, or more than four\n\
          the lots of a seat are not a whole figure from 0 to 1,000,000\n",
        line as usize,
    )
}

// Whether a call or a program answers this number.
fn has_words(number: u64) -> bool
    ensures { result ≡ has_words number }
{
    matches!(number, refusal::ACCEPTED..=BOOK_LAST | SHEET..=SHEET_LAST | DAYS..=DAYS_LAST | CUTS..=CUTS_LAST)
}

// The words for a number that has some.
#[tactic(auto, unfolding(crate::specs::Reason::known))]
fn put_known(out: &mut [u8], at: usize, number: u64, place: u64, field: usize) -> usize
    requires { Room at (known number place field) out.old }
    ensures { Wrote at (known number place field) out.old out.new result }
{
    match number {
        ..SHEET => put_of_book(out, at, number, field),
        ..DAYS => put_of_sheet(out, at, number, place),
        ..CUTS => put_of_days(out, at, number, place),
        _ => put_of_cuts(out, at, number),
    }
}

// The words for a number, a place and a field.
#[tactic(auto, unfolding(crate::specs::Reason::reason))]
pub fn put_reason(out: &mut [u8], at: usize, number: u64, place: u64, field: usize) -> usize
    requires { Room at (reason number place field) out.old }
    ensures { Wrote at (reason number place field) out.old out.new result }
{
    if has_words(number) {
        put_known(out, at, number, place, field)
    } else {
        put_bytes(out, at, b"no such number")
    }
}

// The words of a refusal behind its number and place, to the end of the line.
fn put_why(out: &mut [u8], at: usize, number: u64, place: u64, field: usize) -> usize
    requires { Room at (why number place field) out.old }
    ensures { Wrote at (why number place field) out.old out.new result }
{
    let words = put_bytes(out, at, b": ");
    let end = put_reason(out, words, number, place, field);
    put_byte(out, end, b'\n')
}

// The line that a program says of a refusal.
pub fn put_said(out: &mut [u8], program: &[u8], number: u64, place: u64, field: usize) -> usize
    requires { Room 0 (said program.now number place field) out.old }
    ensures { Wrote 0 (said program.now number place field) out.old out.new result }
{
    let what = put_bytes(out, 0, program);
    let spot = put_worded(out, what, b": refused ", number);
    let end = put_worded(out, spot, b" at ", place);
    put_why(out, end, number, place, field)
}
