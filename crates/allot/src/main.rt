// The program: a book from a file or from standard input; its listing to standard output, the words of a refusal to standard error, and
// a status.
#![tactic(auto)]

ghost use Rattle.std.specs.Prelude.{◌≡◌, length, ◌≤◌};
ghost use Rattle.rules.specs.Book.{judge};
ghost use Rattle.rules.specs.Report.{listing};
ghost use Rattle.shell.specs.Shell.{number_of};
ghost use Rattle.allotment.specs.Listed.{Listed};
ghost use Rattle.allot.specs.Told.{status_of, said_of, Ends, Exit};

use rules::refusal;
use shell::{Ended, Program, Status, Told};
use std::process::ExitCode;

// One byte more than a book may have, so that a longer one is told.
const MOST_READ: usize = rules::LONGEST_BOOK + 1;

// A buffer that the line of every refusal fits.
const SAID_ROOM: usize = 256;

const PROGRAM: Program<'static> = Program {
    name: b"allot",
    help: b"Usage: allot [FILE]\nPrints the forced offsetting allotment of the book in FILE, or on standard\ninput where there is no FILE or it is -.\n\n  --help     print this and end\n  --version  print the version and end\n\nThe status is 0 where the book is accepted, 1 where it is refused, and 2\nwhere the words are wrong or a read or a write fails.\n",
    version: b"allot 0.11.1\n",
};

// The listing, the words and the status of a book. Nothing is read or written here. What it takes of the stack is given back before
// anything is written.
#[inline(never)]
fn tell(book: &[u8], out: &mut [u8], words: &mut [u8]) -> Told
    requires in_bounds { 8192 ≤ length out.old }
    requires in_bounds_2 { 256 ≤ length words.old }
    ensures listed { Listed (listing book.now) out.old out.new result.listed }
    ensures listed_2 { Listed (said_of book.now (judge book.now)) words.old words.new result.said }
    ensures status_value { number_of result.status ≡ status_of (judge book.now) }
{
    let listed = allotment::list(book, out);
    if listed.number == refusal::ACCEPTED {
        return Told {
            status: Status::Accepted,
            listed: listed.length,
            said: 0,
        };
    }
    let field = reasons::field_at(book, listed.place);
    Told {
        status: Status::Refused,
        listed: listed.length,
        said: reasons::put_said(words, b"allot", listed.number, listed.place, field),
    }
}

// Tells of a book.
fn answer(rt: &HostRuntime, book: &[u8]) -> Ended
    ensures { Ends (judge book.now) result.0 }
{
    let mut out = [0u8; allotment::LISTING_ROOM];
    let mut words = [0u8; SAID_ROOM];
    let told = tell(book, &mut out, &mut words);
    PROGRAM.finish_told(rt, &out, &words, told)
}

// The status is 0, 1 or 2.
pub fn frundavel_main(rt: &HostRuntime) -> i32
    ensures { Exit result }
{
    let ended = PROGRAM.run_from::<MOST_READ, _>(rt, 1, |book| answer(rt, book));
    ended.0 as i32
}

// The runtime is what the program has of the system, and its status is that of the process.
fn main(rt: HostRuntime) -> ExitCode {
    ExitCode::from(frundavel_main(&rt) as u8)
}
