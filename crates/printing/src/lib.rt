// The lines of a listing, written into a lent buffer.
#![tactic(auto)]

ghost use Rattle.std.specs.Prelude.{[], ◌++◌};
ghost use Rattle.rules.specs.Book.{Refused};
ghost use Rattle.rules.specs.Report.{digits, printed, listing_of};
ghost use Rattle.writing.specs.Written.{Room, Wrote};
ghost use Rattle.writing.specs.Shown.{shown};
ghost use Rattle.printing.specs.Printed.{listed_head};

use rules::Standing;
use writing::{letter_of, put_byte, put_bytes, put_digits, put_three};

// A customer in the listing.
pub fn put_printed(out: &mut [u8], at: usize, code: &[u8], standing: Standing, offset: u64) -> usize
    requires { Room at (printed (shown code.now [] standing offset)) out.old }
    ensures { Wrote at (printed (shown code.now [] standing offset)) out.old out.new result }
{
    let blank = put_bytes(out, at, code);
    let number = put_three(out, blank, b' ', letter_of(standing), b' ');
    let feed = put_digits(out, number, offset);
    put_byte(out, feed, b'\n')
}

#[tactic(auto, using(writing::specs::Written::pieces))]
pub fn put_worded(out: &mut [u8], at: usize, words: &[u8], n: u64) -> usize
    requires { Room at (words.now ++ digits n) out.old }
    ensures { Wrote at (words.now ++ digits n) out.old out.new result }
{
    let number = put_bytes(out, at, words);
    put_digits(out, number, n)
}

// What stands before the customers in a listing.
pub fn put_printed_head(out: &mut [u8], total: u64, residue: u64) -> usize
    requires { Room 0 (listed_head total residue) out.old }
    ensures { Wrote 0 (listed_head total residue) out.old out.new result }
{
    let second = put_worded(out, 0, b"total ", total);
    let end = put_worded(out, second, b"\nleft ", residue);
    put_byte(out, end, b'\n')
}

// The one line of a refusal.
pub fn put_refusal(out: &mut [u8], number: u64, place: u64) -> usize
    requires { Room 0 (listing_of (Refused number place)) out.old }
    ensures { Wrote 0 (listing_of (Refused number place)) out.old out.new result }
{
    let second = put_worded(out, 0, b"refused ", number);
    let end = put_worded(out, second, b" at ", place);
    put_byte(out, end, b'\n')
}
