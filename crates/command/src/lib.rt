// The words of the command line, and what they ask for together.
#![tactic(auto)]

ghost use Rattle.std.specs.Prelude.{◌≡◌};
ghost use Rattle.rules.specs.Codes.{same};
ghost use Rattle.command.specs.Asked.{word_of, meant_of, operand_of, step_of, settled_of};

// A word by itself.
#[derive(Clone, Copy, Debug, PartialEq, Eq)]
pub enum Word {
    Help,
    Version,
    Dash,
    Ends,
    Option,
    File,
}

// What the words so far ask for; a number is the place of a word.
#[derive(Clone, Copy, Debug, PartialEq, Eq)]
pub enum Asked {
    Nothing,
    Input,
    Named(usize),
    Usage,
    Number,
    Unknown(usize),
    Second(usize),
}

// The words so far, and whether "--" was among them.
#[derive(Clone, Copy, Debug, PartialEq, Eq)]
pub struct Seen {
    pub asked: Asked,
    pub ended: bool,
}

// Whether two words have the same bytes.
pub fn is(word: &[u8], other: &[u8]) -> bool
    ensures { result ≡ same word.now other.now }
{
    word == other
}

#[tactic(auto, unfolding(crate::specs::Asked::word_of))]
pub fn word_of(word: &[u8]) -> Word
    ensures { result ≡ word_of word.now }
{
    if is(word, b"--help") {
        Word::Help
    } else if is(word, b"--version") {
        Word::Version
    } else if is(word, b"-") {
        Word::Dash
    } else if is(word, b"--") {
        Word::Ends
    } else if word.starts_with(b"-") {
        Word::Option
    } else {
        Word::File
    }
}

// A file, or standard input, where none was named before.
fn operand(before: Asked, now: Asked, i: usize) -> Asked
    ensures { result ≡ operand_of before now i }
{
    match before {
        Asked::Nothing => now,
        Asked::Input | Asked::Named(_) => Asked::Second(i),
        Asked::Usage | Asked::Number | Asked::Unknown(_) | Asked::Second(_) => before,
    }
}

// What a word means after "--": every one but "-" is a file's name.
fn meant(word: Word, ended: bool) -> Word
    ensures { result ≡ meant_of word ended }
{
    if ended && word != Word::Dash {
        Word::File
    } else {
        word
    }
}

// The next word, which stands at place i.
fn step(seen: Seen, word: Word, i: usize) -> Seen
    ensures { result ≡ step_of seen word i }
{
    match word {
        Word::Help => Seen {
            asked: Asked::Usage,
            ..seen
        },
        Word::Version => Seen {
            asked: Asked::Number,
            ..seen
        },
        Word::Dash => Seen {
            asked: operand(seen.asked, Asked::Input, i),
            ..seen
        },
        Word::Ends => Seen {
            ended: true,
            ..seen
        },
        Word::Option => Seen {
            asked: Asked::Unknown(i),
            ..seen
        },
        Word::File => Seen {
            asked: operand(seen.asked, Asked::Named(i), i),
            ..seen
        },
    }
}

pub fn next(seen: Seen, word: Word, i: usize) -> Seen
    ensures { result ≡ step_of seen (meant_of word seen.ended) i }
{
    step(seen, meant(word, seen.ended), i)
}

// No further word changes what is asked for.
pub fn settled(asked: Asked) -> bool
    ensures { result ≡ settled_of asked }
{
    matches!(
        asked,
        Asked::Usage | Asked::Number | Asked::Unknown(_) | Asked::Second(_)
    )
}
