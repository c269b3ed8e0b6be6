// The program: a sheet to its book, or a book to its sheet, from a file or from standard input to standard output; the words of a refusal to
// standard error, and a status.
#![tactic(auto)]

ghost use Rattle.std.specs.Prelude.{◌≡◌, ◌≤◌, length};
ghost use Rattle.command.specs.Asked.{word_of};
ghost use Rattle.shell.specs.Shell.{number_of};
ghost use Rattle.allotment.specs.Listed.{Listed};
ghost use Rattle.sheets.specs.Answers.{to_book, to_sheet};
ghost use Rattle.sheet.specs.Words.{is_option, task_of, spelling_of};
ghost use Rattle.sheet.specs.Told.{status_of, said_of, Ends, Low, Exit};

use answers::Answer;
use command::Word;
use rules::refusal;
use shell::{Ended, Program, Status, Told};
use std::process::ExitCode;

// One byte more than a sheet or a book may have, so that a longer one is told.
const MOST_READ: usize = rules::LONGEST_BOOK + 1;

// A buffer that every result fits: a sheet's book is at most twice as long (sheets_promises).
const ROOM: usize = 120_000;

// A buffer that the line of every refusal fits.
const SAID_ROOM: usize = 256;

// Room for the front of a word by which it is known: every word that is asked for is shorter.
const FRONT_ROOM: usize = 16;

const PROGRAM: Program<'static> = Program {
    name: b"sheet",
    help: b"Usage: sheet read [FILE]\n       sheet write comma [FILE]\n       sheet write point [FILE]\nWrites the book of the sheet in FILE, or the sheet of the book in FILE in the\nmark that is named. Standard input is read where there is no FILE or it is -.\n\n  --help     print this and end\n  --version  print the version and end\n\nThe status is 0 where the book is accepted, 1 where the sheet or the book is\nrefused, and 2 where the words are wrong or a read or a write fails.\n",
    version: b"sheet 0.11.1\n",
};

// What the first word asks for.
#[derive(Clone, Copy, Debug, PartialEq, Eq)]
pub enum Task {
    Read,
    Write,
    Option,
    Other,
}

// What the word behind `write` asks for.
#[derive(Clone, Copy, Debug, PartialEq, Eq)]
pub enum Spelling {
    In(u8),
    Option,
    Other,
}

fn is_option(word: &[u8]) -> bool
    ensures { result ≡ is_option (word_of word.now) }
{
    matches!(
        command::word_of(word),
        Word::Help | Word::Version | Word::Option
    )
}

fn task_of(word: &[u8]) -> Task
    ensures { result ≡ task_of word.now }
{
    if command::is(word, b"read") {
        Task::Read
    } else if command::is(word, b"write") {
        Task::Write
    } else if is_option(word) {
        Task::Option
    } else {
        Task::Other
    }
}

fn spelling_of(word: &[u8]) -> Spelling
    ensures { result ≡ spelling_of word.now }
{
    if command::is(word, b"comma") {
        Spelling::In(b',')
    } else if command::is(word, b"point") {
        Spelling::In(b'.')
    } else if is_option(word) {
        Spelling::Option
    } else {
        Spelling::Other
    }
}

// The program's name and the two words that it tells apart: whether one of them is missing.
const WORDS: usize = 3;

// What the word at place 1 asks for, and the one at place 2.
fn first_word(rt: &HostRuntime) -> Task {
    let mut word = [0u8; FRONT_ROOM];
    let n = shell::word_at(rt, 1, &mut word);
    task_of(&word[..n])
}

fn second_word(rt: &HostRuntime) -> Spelling {
    let mut word = [0u8; FRONT_ROOM];
    let n = shell::word_at(rt, 2, &mut word);
    spelling_of(&word[..n])
}

// What an answer comes to: its status, how much was written, and the line of a refusal. The field is the one at its place in the book.
fn say(found: Answer, book: &[u8], words: &mut [u8]) -> Told
    requires { 256 ≤ length words.old }
    ensures listed { Listed (said_of book.now found.number found.place) words.old words.new result.said }
    ensures status_value { number_of result.status ≡ status_of found.number }
    ensures length_value { result.listed ≡ found.length }
{
    let listed = found.length as usize;
    if found.number == refusal::ACCEPTED {
        return Told {
            status: Status::Accepted,
            listed,
            said: 0,
        };
    }
    let field = reasons::field_at(book, found.place);
    Told {
        status: Status::Refused,
        listed,
        said: reasons::put_said(words, b"sheet", found.number, found.place, field),
    }
}

// Writes the book of a sheet; refused or not, all of it that is made.
fn read_sheet(rt: &HostRuntime, sheet: &[u8]) -> Ended
    ensures { Ends (to_book sheet.now 120000).number result.0 }
{
    let mut book = [0u8; ROOM];
    let mut words = [0u8; SAID_ROOM];
    let found = sheets::sheet_to_book(sheet, &mut book);
    let made = found.length as usize;
    let told = say(found, &book[..made], &mut words);
    PROGRAM.finish_told(rt, &book, &words, told)
}

// Writes the sheet of a book.
fn write_sheet(rt: &HostRuntime, book: &[u8], mark: u8) -> Ended
    ensures { Ends (to_sheet book.now mark 120000).number result.0 }
{
    let mut sheet = [0u8; ROOM];
    let mut words = [0u8; SAID_ROOM];
    let found = sheets::book_to_sheet(book, mark, &mut sheet);
    let told = say(found, book, &mut words);
    PROGRAM.finish_told(rt, &sheet, &words, told)
}

// `sheet write` with its mark, and the words behind them.
fn run_marked(rt: &HostRuntime, count: usize) -> Ended
    ensures { Low result.0 }
{
    if count < 3 {
        return PROGRAM.misused(rt, 1, b": neither comma nor point");
    }
    match second_word(rt) {
        Spelling::In(mark) => PROGRAM.run_from::<MOST_READ, _>(
            rt,
            3,
            |book| write_sheet(rt, book, mark),
        ),
        Spelling::Option => run_option(rt, 2),
        Spelling::Other => PROGRAM.misused(rt, 2, b": neither comma nor point"),
    }
}

// Words of which the one at place `first` is an option: they ask for no input.
fn run_option(rt: &HostRuntime, first: usize) -> Ended
    ensures { Low result.0 }
{
    PROGRAM.run_from::<1, _>(rt, first, |_| Ended::from(Status::Failed))
}

fn run(rt: &HostRuntime, count: usize) -> Ended
    ensures { Low result.0 }
{
    if count < 2 {
        return PROGRAM.misused(rt, 1, b"neither read nor write");
    }
    match first_word(rt) {
        Task::Read => PROGRAM.run_from::<MOST_READ, _>(rt, 2, |sheet| read_sheet(rt, sheet)),
        Task::Write => run_marked(rt, count),
        Task::Option => run_option(rt, 1),
        Task::Other => PROGRAM.misused(rt, 1, b": neither read nor write"),
    }
}

// The status is 0, 1 or 2.
pub fn frundavel_main(rt: &HostRuntime) -> i32
    ensures { Exit result }
{
    run(rt, shell::word_count(rt, WORDS)).0 as i32
}

// The runtime is what the program has of the system, and its status is that of the process.
fn main(rt: HostRuntime) -> ExitCode {
    ExitCode::from(frundavel_main(&rt) as u8)
}
