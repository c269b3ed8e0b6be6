// The fields of a line, written into the book. A value is carried over as it is by a point in place of a point.
ghost use Rattle.std.specs.Prelude.{◌≡◌, [], ◌∷◌, ◌+◌, ◌≤◌, ◌/◌, ◌%◌, length};
ghost use Rattle.rules.specs.Limits.{longest_book};
ghost use Rattle.writing.specs.Written.{Room, Wrote};
ghost use Rattle.sheets.specs.Mark.{in_book};
ghost use Rattle.sheets.specs.Line.{field_of, seat_of};
ghost use Rattle.sheets.specs.Sizes.{one_field};
ghost use Rattle.sheets.specs.Put.{trade_in, four_at, Four};

use crate::line::Parts;
use crate::sizing::carried;
use crate::spelling::{put_parts, put_respelled};
use rules::tag;
use writing::put_three;

// High byte first.
fn put_tag(out: &mut [u8], at: usize, tag: u8, size: usize) -> usize
    requires size_le_longest_book { size ≤ longest_book }
    requires room { Room at (tag ∷ size / 256 ∷ size % 256 ∷ []) out.old }
    ensures { Wrote at (tag ∷ size / 256 ∷ size % 256 ∷ []) out.old out.new result }
{
    put_three(out, at, tag, (size / 256) as u8, (size % 256) as u8)
}

fn put_field(out: &mut [u8], at: usize, tag: u8, value: &[u8], mark: u8) -> usize
    requires value_len_bound { length value.now ≤ longest_book }
    requires room { Room at (field_of tag value.now) out.old }
    ensures { Wrote at (field_of tag (in_book mark value.now)) out.old out.new result × (result ≡ at + (length value.now + 3)) }
{
    let behind = put_tag(out, at, tag, value.len());
    put_respelled(out, behind, value, mark, b'.')
}

// The field of a line of one part.
pub fn put_one(out: &mut [u8], at: usize, tag: u8, value: &[u8], mark: u8) -> usize
    requires value_len_bound { length value.now ≤ longest_book }
    requires room { Room at (field_of tag value.now) out.old }
    ensures { Wrote at (one_field mark tag value.now) out.old out.new result }
{
    if carried(tag) {
        put_field(out, at, tag, value, b'.')
    } else {
        put_field(out, at, tag, value, mark)
    }
}

// The four fields of a seat.
fn put_seat(out: &mut [u8], at: usize, code: &[u8], k: &[u8], h: &[u8], q: &[u8], mark: u8) -> usize
    requires q_len_bound { length code.now + length k.now + length h.now + length q.now ≤ longest_book }
    requires q_in_bounds { at + (length code.now + length k.now + length h.now + length q.now + 12) ≤ length out.old }
    ensures { Wrote at (seat_of mark 73 code.now k.now h.now q.now) out.old out.new result }
{
    let second = put_field(out, at, tag::I, code, b'.');
    let third = put_field(out, second, tag::K, k, mark);
    let fourth = put_field(out, third, tag::H, h, mark);
    put_field(out, fourth, tag::Q, q, mark)
}

// The field of a trade: its figures, and its day and time with the semicolon before them.
fn put_trade(out: &mut [u8], at: usize, tag: u8, figures: &[u8], day: &[u8], mark: u8) -> usize
    requires day_len_bound { length figures.now + length day.now ≤ longest_book }
    requires day_in_bounds { at + (length figures.now + length day.now + 3) ≤ length out.old }
    ensures { Wrote at (trade_in mark tag figures.now day.now) out.old out.new result }
{
    let first = put_tag(out, at, tag, figures.len() + day.len());
    let behind = put_parts(out, first, figures, mark);
    put_respelled(out, behind, day, b';', b' ')
}

// The fields of a line of four parts.
pub fn put_four(
    out: &mut [u8],
    place: usize,
    sheet: &[u8],
    at: usize,
    tag: u8,
    parts: Parts,
    mark: u8,
) -> usize
    requires { Four mark sheet.now at tag parts place out.old }
    ensures { Wrote place (four_at mark sheet.now at tag parts) out.old out.new result }
{
    let Parts {
        first,
        second,
        third,
        end,
    } = parts;
    if tag != tag::I {
        return put_trade(
            out,
            place,
            tag,
            &sheet[at + 2..second],
            &sheet[second..end],
            mark,
        );
    }
    put_seat(
        out,
        place,
        &sheet[at + 2..first],
        &sheet[first + 1..second],
        &sheet[second + 1..third],
        &sheet[third + 1..end],
        mark,
    )
}
