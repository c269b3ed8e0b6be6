// The program: the type, the metal, the grams and the seats from a file or from standard input; the lots cut at each seat to standard output,
// the words of a refusal to standard error, and a status.
#![tactic(auto)]

ghost use Rattle.std.specs.Prelude.{◌≡◌, map, ◌≤◌, ◌==◌, length, take};
ghost use Rattle.std.specs.List.{position, before_first, after_first};
ghost use Rattle.rules.specs.Opening.{up_to_blank, after_blank};
ghost use Rattle.writing.specs.Written.{Room, Wrote};
ghost use Rattle.answers.specs.Answered.{Answered};
ghost use Rattle.reasons.specs.Lines.{first_line, behind_lines};
ghost use Rattle.allotment.specs.Listed.{Listed};
ghost use Rattle.cutback.specs.Lines.{lines_of, codes_ahead};
ghost use Rattle.cutback.specs.Judge.{answer_of};
ghost use Rattle.shell.specs.Shell.{number_of};
ghost use Rattle.cutting.specs.Told.{or_else, grams_of, lots_of, read, verdict, row, rows, listing, said_of, status_of, Ends, Exit};

use answers::Answer;
use printing::{put_refusal, put_worded};
use rules::{Figure, Form, MOST_SEATS, refusal};
use shell::{Ended, Program, Status, Told};
use std::process::ExitCode;
use writing::{put_byte, put_bytes};

// One byte more than an input may have, so that a longer one is told.
const MOST_READ: usize = rules::LONGEST_BOOK + 1;

// Four rows of a code, a blank, 7 digits and a line feed, or the line of a refusal.
const ROOM: usize = 128;

// A buffer that the words of every refusal fit.
const SAID_ROOM: usize = 256;

const GRAMS: Form = Form {
    decimals: 0,
    least: 1,
    most: 1_000_000,
};

// More lots than a seat may have: what is no figure is refused with them.
const NO_LOTS: u64 = 1_000_001;

const PROGRAM: Program<'static> = Program {
    name: b"cutback",
    help: b"Usage: cutback [FILE]\nPrints the lots cut at each seat of a customer over the position limit, from\nthe lines in FILE, or on standard input where there is no FILE or it is -:\nthe type (corporate or individual), the metal (gold or silver), the grams in\none lot, and for each seat its code, a blank and its lots.\n\n  --help     print this and end\n  --version  print the version and end\n\nThe status is 0 where the lines are accepted, 1 where they are refused, and 2\nwhere the words are wrong or a read or a write fails.\n",
    version: b"cutback 0.11.1\n",
};

// The first byte of a kind.
fn place_of(text: &[u8], kind: u8) -> Option<usize>
    ensures { result ≡ position (λ b. b == kind) text.now }
{
    text.iter().position(|byte| *byte == kind)
}

// What stands before it, and what stands behind it: all and nothing where there is none.
fn parts(text: &[u8], kind: u8) -> (&[u8], &[u8])
    ensures before { result.0.now ≡ before_first (λ b. b == kind) text.now }
    ensures behind { result.1.now ≡ after_first (λ b. b == kind) text.now }
{
    match place_of(text, kind) {
        Some(at) => (&text[..at], &text[at + 1..]),
        None => (text, &[]),
    }
}

// The first line of a text, and the lines behind it.
fn first_line(text: &[u8]) -> (&[u8], &[u8])
    ensures line { result.0.now ≡ first_line text.now }
    ensures behind { result.1.now ≡ behind_lines 1 text.now }
{
    parts(text, b'\n')
}

// What stands before the first blank of a line, and what stands behind it.
fn around_blank(line: &[u8]) -> (&[u8], &[u8])
    ensures code { result.0.now ≡ up_to_blank line.now }
    ensures lots { result.1.now ≡ after_blank line.now }
{
    parts(line, b' ')
}

fn or_else(other: u64, figure: Figure) -> u64
    ensures { result ≡ or_else other figure }
{
    match figure {
        Figure::Value(n) => n,
        Figure::Comma | Figure::Malformed => other,
    }
}

#[tactic(auto, unfolding(crate::specs::Told::grams_of))]
fn grams_of(line: &[u8]) -> u64
    ensures { result ≡ grams_of line.now }
{
    or_else(0, figures::read_figure(line, GRAMS))
}

// The lots of a seat's line.
#[tactic(auto, unfolding(crate::specs::Told::lots_of))]
fn lots_of(line: &[u8]) -> u64
    ensures { result ≡ lots_of line.now }
{
    let (_, lots) = around_blank(line);
    or_else(NO_LOTS, figures::read_figure(lots, figures::HELD))
}

// The lots of the first four lines.
fn read_lots(lines: &[u8], lots: &mut [u64]) -> usize
    requires { length lots.old ≡ 4 }
    ensures { (result ≤ 4) × (take result lots.new ≡ take 4 (map lots_of (lines_of lines.now))) }
{
    let mut rest = lines;
    for (k, seat) in lots.iter_mut().enumerate() {
        if rest.is_empty() {
            return k;
        }
        let (line, behind) = first_line(rest);
        *seat = lots_of(line);
        rest = behind;
    }
    MOST_SEATS
}

// One line of the listing.
fn put_row(out: &mut [u8], at: usize, code: &[u8], n: u64) -> usize
    requires { Room at (row code.now n) out.old }
    ensures { Wrote at (row code.now n) out.old out.new result }
{
    let blank = put_bytes(out, at, code);
    let feed = put_worded(out, blank, b" ", n);
    put_byte(out, feed, b'\n')
}

// The listing of the cuts, with the codes at the front of the lines.
fn put_rows(out: &mut [u8], lines: &[u8], cuts: &[u64]) -> usize
    requires room { Room 0 (rows (codes_ahead lines.now) cuts.now) out.old }
    requires cuts_in_bounds { length cuts.now ≤ length (lines_of lines.now) }
    ensures { Wrote 0 (rows (codes_ahead lines.now) cuts.now) out.old out.new result }
{
    let mut here = 0;
    let mut rest = lines;
    for cut in cuts {
        let (line, behind) = first_line(rest);
        let (code, _) = around_blank(line);
        here = put_row(out, here, code, *cut);
        rest = behind;
    }
    here
}

// What the lines come to, with the cuts in four lent places.
fn read_input(input: &[u8], cuts: &mut [u64]) -> Answer
    ensures { Answered (answer_of (length cuts.old) (read input.now)) result cuts.old cuts.new }
{
    let (kind, behind_kind) = first_line(input);
    let (metal, behind_metal) = first_line(behind_kind);
    let (grams, seats) = first_line(behind_metal);
    let mut lots = [0u64; MOST_SEATS];
    let count = read_lots(seats, &mut lots);
    cutback::cut_lines(kind, metal, grams_of(grams), seats, &lots[..count], cuts)
}

#[tactic(auto, unfolding(crate::specs::Told::verdict))]
fn answer_of(input: &[u8], cuts: &mut [u64]) -> Answer
    ensures { Answered (answer_of (length cuts.old) (verdict input.now)) result cuts.old cuts.new }
{
    if rules::LONGEST_BOOK < input.len() {
        return Answer::refused(refusal::TOO_LONG, 0);
    }
    read_input(input, cuts)
}

// The listing, the words and the status of an input. Nothing is read or written here.
fn tell(input: &[u8], out: &mut [u8], words: &mut [u8]) -> Told
    requires in_bounds { 128 ≤ length out.old }
    requires in_bounds_2 { 256 ≤ length words.old }
    ensures listed { Listed (listing input.now (verdict input.now)) out.old out.new result.listed }
    ensures listed_2 { Listed (said_of (verdict input.now)) words.old words.new result.said }
    ensures status_value { number_of result.status ≡ status_of (verdict input.now) }
{
    let mut cuts = [0u64; MOST_SEATS];
    let answer = answer_of(input, &mut cuts);
    if answer.number != refusal::ACCEPTED {
        return Told {
            status: Status::Refused,
            listed: put_refusal(out, answer.number, 0),
            said: reasons::put_said(words, b"cutback", answer.number, 0, reasons::NO_TAG),
        };
    }
    let count = answer.length as usize;
    let seats = reasons::behind_lines(input, 3);
    Told {
        status: Status::Accepted,
        listed: put_rows(out, &input[seats..], &cuts[..count]),
        said: 0,
    }
}

// Tells of an input.
fn answer(rt: &HostRuntime, input: &[u8]) -> Ended
    ensures { Ends (verdict input.now) result.0 }
{
    let mut out = [0u8; ROOM];
    let mut words = [0u8; SAID_ROOM];
    let told = tell(input, &mut out, &mut words);
    PROGRAM.finish_told(rt, &out, &words, told)
}

// The status is 0, 1 or 2.
pub fn frundavel_main(rt: &HostRuntime) -> i32
    ensures { Exit result }
{
    let ended = PROGRAM.run_from::<MOST_READ, _>(rt, 1, |input| answer(rt, input));
    ended.0 as i32
}

// The runtime is what the program has of the system, and its status is that of the process.
fn main(rt: HostRuntime) -> ExitCode {
    ExitCode::from(frundavel_main(&rt) as u8)
}
