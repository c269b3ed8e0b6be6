// What lines come to before anything is written: the first refusal, or how many bytes of the book they make.
ghost use Rattle.std.specs.Prelude.{◌≡◌, cond, ◌≤◌, ◌<◌, ◌+◌, length, drop};
ghost use Rattle.rules.specs.Text.{is};
ghost use Rattle.rules.specs.Limits.{longest_book};
ghost use Rattle.days.specs.Lines.{lines_of};
ghost use Rattle.sheets.specs.Mark.{other};
ghost use Rattle.sheets.specs.Line.{carried, figured, traded, strays, one_of, four_of};
ghost use Rattle.sheets.specs.Read.{lines_from};
ghost use Rattle.sheets.specs.Places.{between, HasParts};
ghost use Rattle.sheets.specs.Sizes.{Judges, Unstrayed, Sizes, Tells};

use crate::line::{Line, Parts, line_at};
use crate::refusal::{Refusal, SheetRule};
use crate::spelling::stands_in;
use rules::tag;

// A line that is good: where the next one begins, and how many bytes it makes.
#[derive(Clone, Copy)]
pub struct Sized {
    pub next: usize,
    pub size: usize,
}

// The bytes of Z, which ends the book.
const END: usize = 3;

// "the other mark"
fn other(mark: u8) -> u8
    ensures { result ≡ other mark }
{
    if mark == b',' { b'.' } else { b',' }
}

// D, X and C: their values are carried over as they are.
pub fn carried(tag: u8) -> bool
    ensures { result ≡ carried tag }
{
    matches!(tag, tag::D | tag::X | tag::C)
}

pub fn figured(tag: u8) -> bool
    ensures { result ≡ figured tag }
{
    matches!(tag, tag::S | tag::L | tag::U | tag::V)
}

pub fn traded(tag: u8) -> bool
    ensures { result ≡ traded tag }
{
    matches!(tag, tag::B | tag::A)
}

// The other mark is refused among the bytes of figures.
fn judge_figures(bytes: &[u8], mark: u8) -> Result<(), SheetRule>
    ensures { Unstrayed (strays mark bytes.now) result }
{
    if stands_in(other(mark), bytes) {
        Err(SheetRule::OtherMark)
    } else {
        Ok(())
    }
}

// A line of one part.
fn judge_one(tag: u8, value: &[u8], mark: u8) -> Result<(), SheetRule>
    ensures { Judges (one_of mark tag value.now) result }
{
    if carried(tag) {
        return Ok(());
    }
    if !figured(tag) {
        return Err(SheetRule::NoLine);
    }
    judge_figures(value, mark)
}

// A line of four parts. Figures that stand side by side are looked at in one go: a semicolon is no mark.
fn judge_four(sheet: &[u8], at: usize, tag: u8, parts: Parts, mark: u8) -> Result<(), SheetRule>
    requires { HasParts sheet.now at tag parts }
    ensures { let s = sheet.now in Judges (four_of mark tag (between (at + 2) parts.first s) (between (parts.first + 1) parts.second s) (between (parts.second + 1) parts.third s) (between (parts.third + 1) parts.end s)) result }
{
    if tag == tag::I {
        return judge_figures(&sheet[parts.first + 1..parts.end], mark);
    }
    if !traded(tag) {
        return Err(SheetRule::NoLine);
    }
    judge_figures(&sheet[at + 2..parts.second], mark)
}

// How many bytes a line of four parts makes that has so many without its line feed: a seat makes four fields, a trade one.
fn size_of_four(tag: u8, bytes: usize) -> usize
    requires { bytes ≤ longest_book }
    ensures { result ≡ bytes + cond (is "I" tag) 7 1 }
{
    if tag == tag::I { bytes + 7 } else { bytes + 1 }
}

// The line that begins at a place.
fn size_line(sheet: &[u8], at: usize, mark: u8) -> Result<Sized, SheetRule>
    requires { (at < length sheet.now) × (length sheet.now ≤ longest_book) }
    ensures { Sizes mark sheet.now at result }
{
    match line_at(sheet, at) {
        Some(Line::One { tag, end }) => {
            judge_one(tag, &sheet[at + 2..end], mark)?;
            Ok(Sized {
                next: end + 1,
                size: end + 1 - at,
            })
        }
        Some(Line::Four { tag, parts }) => {
            judge_four(sheet, at, tag, parts, mark)?;
            Ok(Sized {
                next: parts.end + 1,
                size: size_of_four(tag, parts.end - at),
            })
        }
        None => Err(SheetRule::NoLine),
    }
}

// The lines from a place on, where the second line of the sheet begins; Z ends the book.
pub fn size_lines(sheet: &[u8], start: usize, mark: u8) -> Result<usize, Refusal>
    requires { (start ≤ length sheet.now) × (length sheet.now ≤ longest_book) }
    ensures { Tells (lines_from mark 2 (lines_of (drop start sheet.now))) result }
{
    let mut at = start;
    let mut place = 2;
    let mut total = 0;
    while at < sheet.len() {
        match size_line(sheet, at, mark) {
            Ok(line) => {
                at = line.next;
                place += 1;
                total += line.size;
            }
            Err(rule) => return Err(Refusal { rule, place }),
        }
    }
    Ok(total + END)
}
