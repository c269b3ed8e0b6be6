// An input of any length, for programs that read a list of days: its first bytes, and how many line feeds it has in all. What a list comes to
// depends on nothing else (days_promises, Enough). Of a read std says how many bytes moved at most.
#![tactic(auto)]

ghost use Rattle.std.specs.Prelude.{◌≡◌, ◌≤◌, ◌<◌, ◌^◌, length, take};
ghost use Rattle.rules.specs.Book.{Refused};
ghost use Rattle.rules.specs.Report.{listing_of};
ghost use Rattle.days.specs.Lines.{feeds};
ghost use Rattle.reasons.specs.Reason.{no_tag, said};
ghost use Rattle.shell.specs.Shell.{failed, Untouched};
ghost use Rattle.intake.specs.Long.{LongCame, Counts, Fronts, ended_as};
ghost use Rattle.intake.specs.Told.{Put};

use command::Asked;
use shell::{Ended, NAME_ROOM, Opened, Program, Status, Told};
use std::io;
use std::io::{Error, ErrorKind, Read};

// No list has more line feeds: with one more all that follows is of no account.
const MOST_FEEDS: usize = 2_001;

// What came: so many bytes at the front of the buffer, and so many line feeds in all.
#[derive(Clone, Copy, Debug, PartialEq, Eq)]
pub struct Long {
    pub front: usize,
    pub total: usize,
}

// The line feeds so far, with those of the rest: reads on until the input ends or no list has so many line feeds; the turns are counted down
// from a number that no run uses up.
fn count_rest<R: Read>(from: &mut R, feeds: usize) -> io::Result<usize>
    ensures { Counts result feeds }
{
    let mut total = feeds;
    let mut part = [0u8; NAME_ROOM];
    for _ in 0..u64::MAX {
        if MOST_FEEDS < total {
            return Ok(total);
        }
        let n = shell::read_more(from, &mut part, 0)?;
        if n == 0 {
            return Ok(total);
        }
        total += days::count_feeds(&part[..n]);
    }
    Err(Error::from(ErrorKind::Interrupted))
}

// The line feeds of an input whose first bytes are in the buffer, which they may have filled.
fn count_all<R: Read>(from: &mut R, buffer: &[u8], front: usize) -> io::Result<usize>
    requires { front ≤ length buffer.now }
    ensures { Counts result (feeds (take front buffer.now)) }
{
    let feeds = days::count_feeds(&buffer[..front]);
    if front < buffer.len() {
        return Ok(feeds);
    }
    count_rest(from, feeds)
}

// What came of reading an input.
fn read_long<R: Read>(from: &mut R, buffer: &mut [u8]) -> io::Result<Long>
    ensures { Fronts result buffer.new }
{
    let front = shell::read_whole(from, buffer)?;
    let total = count_all(from, buffer, front)?;
    Ok(Long { front, total })
}

// What came from an open input. The name is for what is said where that fails.
fn long_from<R: Read>(
    rt: &HostRuntime,
    program: &Program<'_>,
    from: &mut R,
    name: &[u8],
    buffer: &mut [u8],
) -> Result<Long, Ended>
    ensures { LongCame result buffer.new }
{
    match read_long(from, buffer) {
        Ok(long) => Ok(long),
        Err(why) => Err(program.failed(rt, name, why)),
    }
}

// What came from the file that the word at place i names.
fn long_file(
    rt: &HostRuntime,
    program: &Program<'_>,
    i: usize,
    buffer: &mut [u8],
) -> Result<Long, Ended>
    ensures { LongCame result buffer.new }
{
    let mut path = [0u8; NAME_ROOM];
    let Opened { mut file, name } = program.open_named(rt, i, &mut path)?;
    long_from(rt, program, &mut file, &path[..name], buffer)
}

// Words that ask for no input.
fn ended(input: Result<usize, Ended>) -> Result<Long, Ended>
    ensures { result ≡ ended_as input }
{
    match input {
        Ok(_) => Err(Ended::from(Status::Failed)),
        Err(ended) => Err(ended),
    }
}

// A program's first step, as `Program::begin_from`, with an input of any length.
pub fn begin(rt: &HostRuntime, program: &Program<'_>, buffer: &mut [u8]) -> Result<Long, Ended>
    ensures { LongCame result buffer.new }
{
    let asked = shell::ask(rt, shell::word_count(rt, usize::MAX));
    begin_as(rt, program, asked, buffer)
}

// The same, by what the words ask for: those that ask for no input leave the buffer as it was.
fn begin_as(
    rt: &HostRuntime,
    program: &Program<'_>,
    asked: Asked,
    buffer: &mut [u8],
) -> Result<Long, Ended>
    ensures came { LongCame result buffer.new }
    ensures untouched { Untouched asked buffer.old buffer.new }
{
    match asked {
        Asked::Nothing | Asked::Input => long_from(
            rt,
            program,
            &mut rt.stdin(),
            b"standard input",
            buffer,
        ),
        Asked::Named(i) => long_file(rt, program, i, buffer),
        Asked::Usage | Asked::Number | Asked::Unknown(_) | Asked::Second(_) => {
            ended(program.begin_as(rt, asked, buffer))
        }
    }
}

// Tells by `answer` of the input that the words ask for, of which at most so many bytes are kept.
pub fn run<const ROOM: usize, A: FnOnce(&[u8], usize) -> Ended>(
    rt: &HostRuntime,
    program: &Program<'_>,
    answer: A,
) -> Ended
    requires room { ROOM < 2 ^ 63 }
    requires callable { (front : _) (total : _) → feeds front.now ≤ total → A.pre answer front total }
    requires low { (front : _) (total : _) (ended : _) → A.post answer front total ended → ended.0 ≤ failed }
    ensures { result.0 ≤ failed }
{
    let mut buffer = [0u8; ROOM];
    match begin(rt, program, &mut buffer) {
        Ok(Long { front, total }) => answer(&buffer[..front], total),
        Err(ended) => ended,
    }
}

// What a refused list comes to, by its number and place.
pub fn tell_refused(name: &[u8], number: u64, place: u64, out: &mut [u8], words: &mut [u8]) -> Told
    requires name_bound { length name.now ≤ 32 }
    requires in_bounds { 256 ≤ length out.old }
    requires in_bounds_2 { 256 ≤ length words.old }
    ensures put { Put (listing_of (Refused number place)) out.old out.new result.listed }
    ensures put_2 { Put (said name.now number place no_tag) words.old words.new result.said }
    ensures status_value { result.status ≡ Status.Refused }
{
    Told {
        status: Status::Refused,
        listed: printing::put_refusal(out, number, place),
        said: reasons::put_said(words, name, number, place, reasons::NO_TAG),
    }
}
