// A book as a sheet: field by field, each with the part of a line that is its own.
ghost use Rattle.std.specs.Prelude.{◌≡◌, map, ◌+◌, ◌≤◌, length};
ghost use Rattle.rules.specs.Fields.{fields_of};
ghost use Rattle.rules.specs.Report.{joined};
ghost use Rattle.writing.specs.Written.{Room, Wrote};
ghost use Rattle.sheets.specs.Write.{value_in, line_in, part_in, shown, field_in, sheet_of};
ghost use Rattle.sheets.specs.Shown.{spelt, shown_size, sheet_size, Small};

use crate::sizing::{figured, traded};
use crate::spelling::{put_each, respelt};
use fields::Found;
use rules::tag;
use writing::{put_byte, put_bytes};

// The bytes of the first line.
pub const MARK_LINE: usize = 6;

// How long a field is in a sheet.
fn shown_size(tag: u8, size: usize) -> usize
    requires { Small size }
    ensures { result ≡ shown_size tag size }
{
    match tag {
        tag::I | tag::Q => size + 2,
        tag::K | tag::H => size + 1,
        tag::Z => 0,
        _ => size + 3,
    }
}

// How long a book is as a sheet, its first line aside.
pub fn sheet_size(book: &[u8]) -> usize
    ensures { result ≡ sheet_size (fields_of book.now) }
{
    let mut size = 0;
    let mut at = 0;
    while let Found::Field { tag, start, end } = fields::field_at(book, at) {
        size += shown_size(tag, end - start);
        at = end;
    }
    size
}

// A value whose points and blanks become other bytes.
fn put_spelt(out: &mut [u8], at: usize, s: &[u8], mark: u8, blank: u8) -> usize
    requires { Room at s.now out.old }
    ensures { Wrote at (map (spelt mark blank) s.now) out.old out.new result }
{
    put_each(out, at, s, |byte| {
        respelt(respelt(byte, b'.', mark), b' ', blank)
    })
}

// A value that has a line to itself.
fn put_value(out: &mut [u8], at: usize, mark: u8, tag: u8, value: &[u8]) -> usize
    requires { Room at value.now out.old }
    ensures { Wrote at (value_in mark tag value.now) out.old out.new result }
{
    if figured(tag) {
        return put_spelt(out, at, value, mark, b' ');
    }
    if traded(tag) {
        return put_spelt(out, at, value, mark, b';');
    }
    put_bytes(out, at, value)
}

// A line of one field.
fn put_line(out: &mut [u8], at: usize, mark: u8, tag: u8, value: &[u8]) -> usize
    requires { at + (length value.now + 3) ≤ length out.old }
    ensures { Wrote at (line_in mark tag value.now) out.old out.new result }
{
    let part = put_byte(out, at, tag);
    let begin = put_byte(out, part, b';');
    let end = put_value(out, begin, mark, tag, value);
    put_byte(out, end, b'\n')
}

// A further part of a seat's line.
fn put_part(out: &mut [u8], at: usize, value: &[u8]) -> usize
    requires { at + (length value.now + 1) ≤ length out.old }
    ensures { Wrote at (part_in value.now) out.old out.new result }
{
    let begin = put_byte(out, at, b';');
    put_bytes(out, begin, value)
}

// A field, with the part of a line that is its own.
fn put_shown(out: &mut [u8], at: usize, mark: u8, tag: u8, value: &[u8]) -> usize
    requires { at + shown_size tag (length value.now) ≤ length out.old }
    ensures { Wrote at (shown mark tag value.now) out.old out.new result }
{
    match tag {
        tag::I => {
            let part = put_byte(out, at, tag);
            put_part(out, part, value)
        }
        tag::K | tag::H => put_part(out, at, value),
        tag::Q => {
            let lots = put_part(out, at, value);
            put_byte(out, lots, b'\n')
        }
        tag::Z => at,
        _ => put_line(out, at, mark, tag, value),
    }
}

// The fields of a book, one behind the other.
fn put_fields(out: &mut [u8], at: usize, book: &[u8], mark: u8) -> usize
    requires { at + sheet_size (fields_of book.now) ≤ length out.old }
    ensures { Wrote at (joined (field_in mark) (fields_of book.now)) out.old out.new result }
{
    let mut next = at;
    let mut from = 0;
    while let Found::Field { tag, start, end } = fields::field_at(book, from) {
        next = put_shown(out, next, mark, tag, &book[start..end]);
        from = end;
    }
    next
}

// A book as a sheet, at the front of a buffer that has room for it.
pub fn put_sheet(out: &mut [u8], book: &[u8], mark: u8) -> usize
    requires { 6 + sheet_size (fields_of book.now) ≤ length out.old }
    ensures { Wrote 0 (sheet_of mark book.now) out.old out.new result }
{
    let word = put_bytes(out, 0, b"mark");
    let end = put_byte(out, word, mark);
    let first = put_byte(out, end, b'\n');
    put_fields(out, first, book, mark)
}
