// The program: a list of any length from a file or from standard input; its listing to standard output, the words of a refusal to standard
// error, and a status.
#![tactic(auto)]

mod listing;

ghost use Rattle.std.specs.Prelude.{◌≡◌, false, length, ◌≤◌};
ghost use Rattle.rules.specs.Text.{bytes};
ghost use Rattle.days.specs.Lines.{feeds};
ghost use Rattle.days.specs.Listed.{verdict_of};
ghost use Rattle.shell.specs.Shell.{number_of};
ghost use Rattle.intake.specs.Told.{Put, status_by, said_by, Ends, Exit};
ghost use Rattle.watch.specs.Moves.{listing_by};
ghost use Rattle.moves.specs.Sizes.{listing_room};

use listing::put_days;
use rules::refusal;
use shell::{Ended, Program, Status, Told};
use std::process::ExitCode;

// So many bytes of a list are kept: those behind them matter only through their line feeds.
const FRONT: usize = 60_000;

const MOST_DAYS: usize = 2_000;

// A buffer that every listing fits.
const LISTING_ROOM: usize = 88_064;

// A buffer that the line of every refusal fits.
const SAID_ROOM: usize = 256;

const PROGRAM: Program<'static> = Program {
    name: b"moves",
    help: b"Usage: moves [FILE]\nPrints the days on which Article 12 or 13 is met, of the list in FILE, or on\nstandard input where there is no FILE or it is -.\n\n  --help     print this and end\n  --version  print the version and end\n\nThe status is 0 where the list is accepted, 1 where it is refused, and 2\nwhere the words are wrong or a read or a write fails.\n",
    version: b"moves 0.11.1\n",
};

// The listing, the words and the status of a list with these first bytes and so many line feeds in all. Nothing is read or written here.
fn tell(front: &[u8], total: usize, spans: &mut [u8], out: &mut [u8], words: &mut [u8]) -> Told
    requires front_bound { feeds front.now ≤ total }
    requires in_bounds { 2000 ≤ length spans.old }
    requires listing_room_in_bounds { listing_room ≤ length out.old }
    requires in_bounds_2 { 256 ≤ length words.old }
    ensures put { Put (listing_by (verdict_of false total front.now)) out.old out.new result.listed }
    ensures put_2 { Put (said_by (bytes "moves") (verdict_of false total front.now)) words.old words.new result.said }
    ensures status_value { number_of result.status ≡ status_by (verdict_of false total front.now) }
{
    let found = watch::moves_in(front, total, spans);
    if found.number == refusal::ACCEPTED {
        let count = found.length as usize;
        return Told {
            status: Status::Accepted,
            listed: put_days(out, &spans[..count]),
            said: 0,
        };
    }
    intake::tell_refused(b"moves", found.number, found.place, out, words)
}

// Tells of a list.
fn answer(rt: &HostRuntime, front: &[u8], total: usize) -> Ended
    requires { feeds front.now ≤ total }
    ensures { Ends (verdict_of false total front.now) result.0 }
{
    let mut spans = [0u8; MOST_DAYS];
    let mut out = [0u8; LISTING_ROOM];
    let mut words = [0u8; SAID_ROOM];
    let told = tell(front, total, &mut spans, &mut out, &mut words);
    PROGRAM.finish_told(rt, &out, &words, told)
}

// The status is 0, 1 or 2.
pub fn frundavel_main(rt: &HostRuntime) -> i32
    ensures { Exit result }
{
    let ended = intake::run::<FRONT, _>(rt, &PROGRAM, |front, total| answer(rt, front, total));
    ended.0 as i32
}

// The runtime is what the program has of the system, and its status is that of the process.
fn main(rt: HostRuntime) -> ExitCode {
    ExitCode::from(frundavel_main(&rt) as u8)
}
