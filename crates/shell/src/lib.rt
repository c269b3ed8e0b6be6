// What every program has with its shell: the words of the command line, an input, an output, what is said on standard error, and a
// status. Of a read or a write std says how many bytes moved at most; that these are the file's is not proved.
#![tactic(auto)]

ghost use Rattle.std.specs.Prelude.{◌≡◌, ◌⊎◌, ◌≤◌, ◌<◌, ◌^◌, length};
ghost use Rattle.laws.specs.Filled.{filled};
ghost use Rattle.shell.specs.Shell.{
  failed,
  number_of,
  More,
  Fitting,
  Taken,
  Opens,
  Took,
  Among,
  Begun,
  Untouched,
  Came,
  ended_by,
  visible,
  visible_at,
};

use command::{Asked, Seen};
use std::env::{Env, FillError};
use std::fs::{File, OpenOptions};
use std::io::{Error, ErrorKind, Read, Write};
use std::os::fd::AsFd;
use std::{fs, io};

// How a program ends.
#[derive(Clone, Copy, Debug, PartialEq, Eq)]
pub enum Status {
    Accepted,
    Refused,
    // The words, the input or the output were wrong.
    Failed,
}

// A program ends here, and this is the number that its shell gets: that of a status.
#[derive(Clone, Copy, Debug, PartialEq, Eq)]
pub struct Ended(pub u32);

impl From<Status> for Ended {
    ghost from_gives = { λ status ended. ended.0 ≡ number_of status };

    fn from(status: Status) -> Ended {
        Ended(status as u32)
    }
}

// What an input comes to: a status, and how many bytes of the listing and of the line stand at the front of their buffers.
#[derive(Clone, Copy, Debug, PartialEq, Eq)]
pub struct Told {
    pub status: Status,
    pub listed: usize,
    pub said: usize,
}

// A file that a word names, open, and the length of its name.
#[derive(Drop)]
pub struct Opened {
    pub file: File,
    pub name: usize,
}

// Room for a name and the 0 behind it: no path is longer.
pub const NAME_ROOM: usize = 4096;

// Room for the front of a word by which it is known: every option that a program has is shorter.
const FRONT_ROOM: usize = 16;

// Room for the words of an error.
const WORDS_ROOM: usize = 256;

// The numbers that the system has for a word that is missing (EINVAL), a name that is too long and one that is no text.
const MISSING: i32 = 22;

const TOO_LONG: i32 = 36;

const NO_TEXT: i32 = 84;

// Those of a file that cannot be handed over to a device, since it has none (MISSING too).
const READ_ONLY: i32 = 30;

const NO_CALL: i32 = 38;

const UNSUPPORTED: i32 = 95;

// The process's own name for its standard output.
const OUTPUT: &str = "/proc/self/fd/1";

// One read into the rest of the buffer: how many bytes came, or why none did. A read that a signal interrupts is tried again; the turns are
// counted down from a number that no run uses up.
pub fn read_more<R: Read>(from: &mut R, buffer: &mut [u8], done: usize) -> io::Result<usize>
    requires { done ≤ length buffer.old }
    ensures { More done buffer.old buffer.new result }
{
    for _ in 0..u64::MAX {
        match from.read(&mut buffer[done..]) {
            Err(why) if why.kind() == ErrorKind::Interrupted => {}
            ended => return ended,
        }
    }
    Err(Error::from(ErrorKind::Interrupted))
}

// Reads until the input ends or the buffer is full: a read may bring less than was asked for.
pub fn read_whole<R: Read>(from: &mut R, buffer: &mut [u8]) -> io::Result<usize>
    ensures { Fitting result (length buffer.old) }
{
    let mut done = 0;
    while done < buffer.len() {
        let got = read_more(from, buffer, done)?;
        if got == 0 {
            break;
        }
        done += got;
    }
    Ok(done)
}

// Writes all bytes, or says why not, where some of them may have been written. std has words of its own for a write that takes nothing.
fn write_whole<W: Write>(to: &mut W, bytes: &[u8]) -> io::Result<()> {
    match to.write_all(bytes) {
        Err(why) if why.kind() == ErrorKind::WriteZero => Err(Error::from(ErrorKind::WriteZero)),
        ended => ended,
    }
}

// Shows a name on a terminal as it is, but for bytes that would move its cursor.
pub fn make_visible(name: &mut [u8])
    ensures { name.new ≡ filled (visible_at name.old) (length name.old) name.old }
{
    for byte in name.iter_mut() {
        *byte = visible(*byte);
    }
}

fn visible(byte: u8) -> u8
    ensures { result ≡ visible byte }
{
    if byte.is_ascii_control() { b'?' } else { byte }
}

// Says on standard error what its bytes say. Where that fails there is nobody to tell.
fn say(rt: &HostRuntime, bytes: &[u8]) {
    let _ = rt.stderr().write_all(bytes);
}

// Says why something failed, in the words of the C library: without the number that std puts behind them.
fn say_why(rt: &HostRuntime, why: Error) {
    let mut words = [0u8; WORDS_ROOM];
    let mut rest: &mut [u8] = &mut words;
    let _ = write!(rest, "{why}");
    let n = WORDS_ROOM.saturating_sub(rest.len());
    let text = std::str::from_utf8(&words[..n]).unwrap_or("");
    let said = text
        .split_once(" (os error ")
        .map_or(text, |(said, _)| said);
    say(rt, said.as_bytes());
}

// How many words there are, with the program's name, counted up to so many. More than that no contract can say of what the system hands over.
pub fn word_count(rt: &HostRuntime, most: usize) -> usize
    ensures { result ≤ most }
{
    for i in 0..most {
        if let Err(FillError::NotPresent) = rt.arg(i, &mut []) {
            return i;
        }
    }
    most
}

// The word at place i, at the front of a buffer, or as much of it as the buffer holds: no path is longer, and the front of a longer word
// says whether it is an option. A word that is missing has no bytes.
pub fn word_at(rt: &HostRuntime, i: usize, word: &mut [u8]) -> usize
    ensures { result ≤ length word.new }
{
    match rt.arg(i, word) {
        Ok(n) => n,
        Err(FillError::TooLong) => word.len(),
        Err(FillError::NotPresent) => 0,
    }
}

// Whether a file has nothing to hand over, by what its system says of that: then nothing that was written can be lost there.
fn keeps_nothing(why: Error) -> bool {
    matches!(
        why.raw_os_error(),
        Some(MISSING | READ_ONLY | NO_CALL | UNSUPPORTED)
    )
}

// Hands a file that standard output goes to over to its device: some systems tell only there that it could not be written. (What a close
// says std tells nobody.)
fn keep_file(rt: &HostRuntime) -> io::Result<()> {
    let Ok(known) = fs::metadata(rt, OUTPUT) else {
        return Ok(());
    };
    if !known.is_file() {
        return Ok(());
    }
    let Ok(file) = OpenOptions::new().write(true).open(rt, OUTPUT) else {
        return Ok(());
    };
    match file.sync_data() {
        Err(why) if keeps_nothing(why) => Ok(()),
        ended => ended,
    }
}

// All of a text to standard output, which has to be there where the text is empty too.
fn put_out(rt: &HostRuntime, text: &[u8]) -> io::Result<()> {
    write_whole(&mut rt.stdout(), text)?;
    rt.stdout().as_fd().try_clone_to_owned()?;
    keep_file(rt)
}

fn ended_by(written: bool, ended: Ended) -> Ended
    ensures { result.0 ≡ ended_by written ended.0 }
{
    if written {
        ended
    } else {
        Ended::from(Status::Failed)
    }
}

// Opens the file of a name. std opens none whose name is no text.
fn open_path(rt: &HostRuntime, path: &[u8]) -> io::Result<File> {
    match std::str::from_utf8(path) {
        Ok(text) => File::open(rt, text),
        Err(_) => Err(Error::from_raw_os_error(NO_TEXT)),
    }
}

// Why a word is not to be had.
fn no_word(why: FillError) -> Error {
    Error::from_raw_os_error(match why {
        FillError::NotPresent => MISSING,
        FillError::TooLong => TOO_LONG,
    })
}

// What is asked for after the word at place i.
fn take(rt: &HostRuntime, seen: Seen, i: usize) -> Seen
    ensures { Took seen i result }
{
    if command::settled(seen.asked) {
        return seen;
    }
    let mut word = [0u8; FRONT_ROOM];
    let n = word_at(rt, i, &mut word);
    command::next(seen, command::word_of(&word[..n]), i)
}

// What the words from place `first` on ask for.
pub fn ask_from(rt: &HostRuntime, first: usize, count: usize) -> Asked
    ensures { Among first count result }
{
    let mut seen = Seen {
        asked: Asked::Nothing,
        ended: false,
    };
    for i in first..count {
        seen = take(rt, seen, i);
    }
    seen.asked
}

// What all words ask for; the first of them is the program's name.
pub fn ask(rt: &HostRuntime, count: usize) -> Asked
    ensures { Among 1 count result }
{
    ask_from(rt, 1, count)
}

// A program: its name, and what it prints where its words ask for its use or its version.
#[derive(Clone, Copy)]
pub struct Program<'a> {
    pub name: &'a [u8],
    pub help: &'a [u8],
    pub version: &'a [u8],
}

impl Program<'_> {
    // Says what failed, and why in the words of the C library.
    pub fn failed(&self, rt: &HostRuntime, what: &[u8], why: Error) -> Ended
        ensures { result.0 ≡ failed }
    {
        say(rt, self.name);
        say(rt, b": ");
        say(rt, what);
        say(rt, b": ");
        say_why(rt, why);
        say(rt, b"\n");
        Ended::from(Status::Failed)
    }

    // Says what is wrong with the word at place i, and where to read more.
    pub fn misused(&self, rt: &HostRuntime, i: usize, what: &[u8]) -> Ended
        ensures { result.0 ≡ failed }
    {
        let mut word = [0u8; NAME_ROOM];
        let n = word_at(rt, i, &mut word);
        make_visible(&mut word);
        say(rt, self.name);
        say(rt, b": ");
        say(rt, &word[..n]);
        say(rt, what);
        say(rt, b"\nTry '");
        say(rt, self.name);
        say(rt, b" --help'.\n");
        Ended::from(Status::Failed)
    }

    // A program's last step: its text to standard output, then what it says to standard error. Where the output fails, that is said in its
    // place.
    pub fn finish_as(&self, rt: &HostRuntime, text: &[u8], said: &[u8], ended: Ended) -> Ended
        ensures { (result.0 ≡ failed) ⊎ (result.0 ≡ ended.0) }
    {
        let written = match put_out(rt, text) {
            Ok(()) => {
                say(rt, said);
                true
            }
            Err(why) => {
                self.failed(rt, b"standard output", why);
                false
            }
        };
        ended_by(written, ended)
    }

    // The same, with a status.
    pub fn finish(&self, rt: &HostRuntime, text: &[u8], said: &[u8], status: Status) -> Ended
        ensures { (result.0 ≡ failed) ⊎ (result.0 ≡ number_of status) }
    {
        self.finish_as(rt, text, said, Ended::from(status))
    }

    // The same of what an input comes to, from the buffers that it was put into.
    pub fn finish_told(&self, rt: &HostRuntime, out: &[u8], words: &[u8], told: Told) -> Ended
        requires listed_in_bounds { told.listed ≤ length out.now }
        requires said_in_bounds { told.said ≤ length words.now }
        ensures { (result.0 ≡ failed) ⊎ (result.0 ≡ number_of told.status) }
    {
        self.finish(rt, &out[..told.listed], &words[..told.said], told.status)
    }

    // Reads an open input. The name is for what is said where that fails.
    fn read_from<R: Read>(
        &self,
        rt: &HostRuntime,
        from: &mut R,
        name: &[u8],
        buffer: &mut [u8],
    ) -> Result<usize, Ended>
        ensures { Taken result (length buffer.old) }
    {
        match read_whole(from, buffer) {
            Ok(n) => Ok(n),
            Err(why) => Err(self.failed(rt, name, why)),
        }
    }

    // Opens the file that the word at place i names. Its name is then at the front of the buffer, as a message shows it.
    pub fn open_named(&self, rt: &HostRuntime, i: usize, path: &mut [u8]) -> Result<Opened, Ended>
        ensures { Opens result (length path.new) }
    {
        let name = match rt.arg(i, path) {
            Ok(n) => n,
            Err(why) => return Err(self.failed(rt, b"the file's name", no_word(why))),
        };
        let opened = open_path(rt, &path[..name]);
        make_visible(path);
        match opened {
            Ok(file) => Ok(Opened { file, name }),
            Err(why) => Err(self.failed(rt, &path[..name], why)),
        }
    }

    // Reads the file that the word at place i names. The buffer has room for the name while the file is opened, so that no second one stands
    // on the stack then; the name is fetched again for what is said where the read fails.
    fn read_file(&self, rt: &HostRuntime, i: usize, buffer: &mut [u8]) -> Result<usize, Ended>
        ensures { Taken result (length buffer.old) }
    {
        let most = buffer.len().min(NAME_ROOM);
        let Opened { mut file, name: _ } = self.open_named(rt, i, &mut buffer[..most])?;
        read_whole(&mut file, buffer).map_err(|why| self.unread(rt, i, buffer, why))
    }

    // Says why the file that the word at place i names cannot be read: the buffer has room for its name once more.
    fn unread(&self, rt: &HostRuntime, i: usize, buffer: &mut [u8], why: Error) -> Ended
        ensures { result.0 ≡ failed }
    {
        let most = buffer.len().min(NAME_ROOM);
        let n = word_at(rt, i, &mut buffer[..most]);
        make_visible(&mut buffer[..n]);
        self.failed(rt, &buffer[..n], why)
    }

    // What a program begins with, by what its words ask for.
    pub fn begin_as(
        &self,
        rt: &HostRuntime,
        asked: Asked,
        buffer: &mut [u8],
    ) -> Result<usize, Ended>
        ensures begun { Begun asked result (length buffer.old) }
        ensures untouched { Untouched asked buffer.old buffer.new }
    {
        match asked {
            Asked::Nothing | Asked::Input => self.read_from(
                rt,
                &mut rt.stdin(),
                b"standard input",
                buffer,
            ),
            Asked::Named(i) => self.read_file(rt, i, buffer),
            Asked::Usage => Err(self.finish(rt, self.help, b"", Status::Accepted)),
            Asked::Number => Err(self.finish(rt, self.version, b"", Status::Accepted)),
            Asked::Unknown(i) => Err(self.misused(rt, i, b": no such option")),
            Asked::Second(i) => Err(self.misused(rt, i, b": a second file")),
        }
    }

    // A program's first step, by its words from place `first` on: `[FILE]`, standard input where there is no file or it is `-`, `--help` and
    // `--version`.
    pub fn begin_from(
        &self,
        rt: &HostRuntime,
        first: usize,
        buffer: &mut [u8],
    ) -> Result<usize, Ended>
        ensures { Came result (length buffer.old) }
    {
        self.begin_as(rt, ask_from(rt, first, word_count(rt, usize::MAX)), buffer)
    }

    // Tells by `answer` of the input that the words from place `first` on ask for, of which at most so many bytes are read.
    pub fn run_from<const ROOM: usize, A: FnOnce(&[u8]) -> Ended>(
        &self,
        rt: &HostRuntime,
        first: usize,
        answer: A,
    ) -> Ended
        requires room { ROOM < 2 ^ 63 }
        requires callable { A.IsAlwaysCallable answer }
        requires low { (input : _) (ended : _) → A.post answer input ended → ended.0 ≤ failed }
        ensures { result.0 ≤ failed }
    {
        let mut buffer = [0u8; ROOM];
        match self.begin_from(rt, first, &mut buffer) {
            Ok(n) => answer(&buffer[..n]),
            Err(ended) => ended,
        }
    }
}
