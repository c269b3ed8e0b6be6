// Comma sheets: a sheet read into a book, and a book written as a sheet in either mark.
#![tactic(auto)]

mod judging;
mod line;
mod putting;
mod reading;
pub mod refusal;
mod shown;
mod sizing;
mod spelling;

ghost use Rattle.std.specs.Prelude.{◌≡◌, not, ◌+◌, ltb, length};
ghost use Rattle.answers.specs.Answered.{Answered};
ghost use Rattle.sheets.specs.Mark.{is_mark};
ghost use Rattle.sheets.specs.Answers.{to_book, to_sheet};

use answers::Answer;
use judging::judge;
use reading::make_book;
use refusal::SheetRule;
use shown::{put_sheet, sheet_size};

fn no_mark(mark: u8) -> bool
    ensures { result ≡ not (is_mark mark) }
{
    !matches!(mark, b',' | b'.')
}

// Whether a sheet of so many bytes behind its first line has no room.
fn lacks_room(room: usize, size: usize) -> bool
    ensures { result ≡ ltb room (6 + size) }
{
    room < shown::MARK_LINE || room - shown::MARK_LINE < size
}

// A sheet and a lent buffer: the answer, and the book that the sheet makes at the front of the buffer, accepted or refused.
pub fn sheet_to_book(sheet: &[u8], book: &mut [u8]) -> Answer
    ensures { Answered (to_book sheet.now (length book.old)) result book.old book.new }
{
    match make_book(sheet, book) {
        Ok(length) => match judge(&book[..length]) {
            Ok(()) => Answer::accepted(length),
            Err(refusal) => Answer {
                number: refusal.number,
                place: refusal.place as u64,
                length: length as u64,
            },
        },
        Err(refusal) => Answer::refused(refusal.rule.number(), refusal.place),
    }
}

// A book, a mark and a lent buffer: the answer, and the book as a sheet at the front of the buffer where it is accepted.
pub fn book_to_sheet(book: &[u8], mark: u8, sheet: &mut [u8]) -> Answer
    ensures { Answered (to_sheet book.now mark (length sheet.old)) result sheet.old sheet.new }
{
    if no_mark(mark) {
        return Answer::refused(SheetRule::NoMark.number(), 0);
    }
    if let Err(refusal) = judge(book) {
        return Answer::refused(refusal.number, refusal.place);
    }
    if lacks_room(sheet.len(), sheet_size(book)) {
        return Answer::refused(SheetRule::NoResult.number(), 0);
    }
    let length = put_sheet(sheet, book, mark);
    Answer::accepted(length)
}
