// The fields of a report, written into a lent buffer; and how many bytes they take.
#![tactic(auto)]

ghost use Rattle.std.specs.Prelude.{◌≡◌, [], ◌∷◌, ◌+◌, ◌≤◌, ◌<◌, length};
ghost use Rattle.rules.specs.Report.{digits, letter, field};
ghost use Rattle.writing.specs.Written.{Room, Wrote};
ghost use Rattle.entries.specs.Entries.{tag_and_length, tagged, own_bytes, seat_bytes, report_head, reported_length, seat_length};

use rules::{Standing, tag};
use writing::{digits_length, fill_digits, letter_of, put_byte, put_bytes, put_three};

// High byte first. The length of a value must fit two bytes.
fn put_tag(out: &mut [u8], at: usize, tag: u8, count: usize) -> usize
    requires count_bound { count < 65536 }
    requires room { Room at (tag_and_length tag count) out.old }
    ensures { Wrote at (tag_and_length tag count) out.old out.new result }
{
    let [high, low] = (count as u16).to_be_bytes();
    put_three(out, at, tag, high, low)
}

fn put_field(out: &mut [u8], at: usize, tag: u8, s: &[u8]) -> usize
    requires s_len_bound { length s.now < 65536 }
    requires room { Room at (tagged tag s.now) out.old }
    ensures { Wrote at (tagged tag s.now) out.old out.new result }
{
    let value = put_tag(out, at, tag, s.len());
    put_bytes(out, value, s)
}

fn put_number_field(out: &mut [u8], at: usize, tag: u8, n: u64) -> usize
    requires { Room at (tagged tag (digits n)) out.old }
    ensures { Wrote at (tagged tag (digits n)) out.old out.new result }
{
    let count = digits_length(n);
    let value = put_tag(out, at, tag, count);
    fill_digits(out, value, count, n)
}

fn put_standing_field(out: &mut [u8], at: usize, standing: Standing) -> usize
    requires { Room at (field "E" (letter standing ∷ [])) out.old }
    ensures { Wrote at (field "E" (letter standing ∷ [])) out.old out.new result }
{
    let value = put_tag(out, at, tag::E, 1);
    put_byte(out, value, letter_of(standing))
}

// A customer's own fields in the report.
pub fn put_reported(
    out: &mut [u8],
    at: usize,
    code: &[u8],
    standing: Standing,
    offset: u64,
) -> usize
    requires code_len_bound { length code.now < 65536 }
    requires room { Room at (own_bytes code.now standing offset) out.old }
    ensures { Wrote at (own_bytes code.now standing offset) out.old out.new result }
{
    let second = put_field(out, at, tag::C, code);
    let third = put_standing_field(out, second, standing);
    put_number_field(out, third, tag::O, offset)
}

// A seat's.
pub fn put_seat(out: &mut [u8], at: usize, code: &[u8], lots: u64) -> usize
    requires code_len_bound { length code.now < 65536 }
    requires room { Room at (seat_bytes code.now lots) out.old }
    ensures { Wrote at (seat_bytes code.now lots) out.old out.new result }
{
    let second = put_field(out, at, tag::I, code);
    put_number_field(out, second, tag::J, lots)
}

// What stands before the customers in a report.
pub fn put_head(out: &mut [u8], total: u64, residue: u64) -> usize
    requires { Room 0 (report_head total residue) out.old }
    ensures { Wrote 0 (report_head total residue) out.old out.new result }
{
    let second = put_number_field(out, 0, tag::T, total);
    put_number_field(out, second, tag::R, residue)
}

// Three tags with their lengths, and the standing's one byte.
pub fn reported_length(code_length: usize, offset: u64) -> usize
    requires { code_length < 65536 }
    ensures { result ≡ reported_length code_length offset }
{
    10 + code_length + digits_length(offset)
}

// Two tags with their lengths.
pub fn seat_length(code_length: usize, lots: u64) -> usize
    requires { code_length < 65536 }
    ensures { (result ≡ seat_length code_length lots) × (result ≤ 26 + code_length) }
{
    6 + code_length + digits_length(lots)
}

// The same two of the head.
pub fn head_length(total: u64, residue: u64) -> usize
    ensures { result ≡ length (report_head total residue) }
{
    6 + digits_length(total) + digits_length(residue)
}
