// Every call for C, in one archive: each is the one of `frundavel`, whose clauses it states again. A library is not linked into C, so that
// this crate has the symbols, and `frundavel` the calls that other crates and the promises name.
#![tactic(auto)]

ghost use Rattle.std.specs.Prelude.{length};
ghost use Rattle.rules.specs.Answer.{fitted, answer};
ghost use Rattle.reasons.specs.Reason.{field_at, reason};
ghost use Rattle.answers.specs.Answered.{Answered};
ghost use Rattle.columns.specs.View.{runs, places_of, viewed, Viewed};
ghost use Rattle.cutback.specs.Lines.{codes_in};
ghost use Rattle.cutback.specs.Judge.{judge, answer_of};
ghost use Rattle.watch.specs.Moves.{moves};
ghost use Rattle.locks.specs.Listing.{ladder};
ghost use Rattle.sheets.specs.Answers.{to_book, to_sheet};

use answers::Answer;

// A book and a lent buffer: the answer, and the report at the front of the buffer where the book is accepted.
#[unsafe(no_mangle)]
pub extern "C" fn frundavel_allot(book: &[u8], report: &mut [u8]) -> Answer
    ensures { Answered (answer book.now (length report.old)) result report.old report.new }
{
    frundavel::frundavel_allot(book, report)
}

// A book and four lent runs: the answer, and in the first places of each run the book's customers where it is accepted.
#[unsafe(no_mangle)]
pub extern "C" fn frundavel_columns(
    book: &[u8],
    standings: &mut [u8],
    offered: &mut [u64],
    pending: &mut [u64],
    offsets: &mut [u64],
) -> Answer
    ensures { Viewed (viewed book.now (places_of (runs standings.old offered.old pending.old offsets.old))) (runs standings.old offered.old pending.old offsets.old) (runs standings.new offered.new pending.new offsets.new) result }
{
    frundavel::frundavel_columns(book, standings, offered, pending, offsets)
}

// The words for a refusal, in a lent buffer. The book is there for the numbers that name a field.
#[unsafe(no_mangle)]
pub extern "C" fn frundavel_reason(number: u64, place: u64, book: &[u8], words: &mut [u8]) -> Answer
    ensures { Answered (fitted (length words.old) (reason number place (field_at book.now place))) result words.old words.new }
{
    frundavel::frundavel_reason(number, place, book, words)
}

// A customer's type, the metal, the grams in one lot, and its seats: the answer, and in the first of the lent places the lots cut at each seat.
#[unsafe(no_mangle)]
pub extern "C" fn frundavel_cutback(
    kind: &[u8],
    metal: &[u8],
    grams: u64,
    codes: &[u8],
    sizes: &[u64],
    lots: &[u64],
    cuts: &mut [u64],
) -> Answer
    ensures { Answered (answer_of (length cuts.old) (judge kind.now metal.now grams (codes_in sizes.now codes.now) lots.now)) result cuts.old cuts.new }
{
    frundavel::frundavel_cutback(kind, metal, grams, codes, sizes, lots, cuts)
}

// A list of days and a lent run: the answer, and in the first places of the run a byte for each day where the list is accepted.
#[unsafe(no_mangle)]
pub extern "C" fn frundavel_moves(list: &[u8], spans: &mut [u8]) -> Answer
    ensures { Answered (moves list.now (length spans.old)) result spans.old spans.new }
{
    frundavel::frundavel_moves(list, spans)
}

// A list of days with marks and limits, and a lent run: the answer, and in the first places of the run a rung for each day where the list is
// accepted.
#[unsafe(no_mangle)]
pub extern "C" fn frundavel_ladder(list: &[u8], steps: &mut [u64]) -> Answer
    ensures { Answered (ladder list.now (length steps.old)) result steps.old steps.new }
{
    frundavel::frundavel_ladder(list, steps)
}

// A sheet and a lent buffer: the answer, and the book that the sheet makes at the front of the buffer, accepted or refused.
#[unsafe(no_mangle)]
pub extern "C" fn frundavel_sheet_to_book(sheet: &[u8], book: &mut [u8]) -> Answer
    ensures { Answered (to_book sheet.now (length book.old)) result book.old book.new }
{
    frundavel::frundavel_sheet_to_book(sheet, book)
}

// A book, a mark and a lent buffer: the answer, and the book as a sheet at the front of the buffer where it is accepted.
#[unsafe(no_mangle)]
pub extern "C" fn frundavel_book_to_sheet(book: &[u8], mark: u8, sheet: &mut [u8]) -> Answer
    ensures { Answered (to_sheet book.now mark (length sheet.old)) result sheet.old sheet.new }
{
    frundavel::frundavel_book_to_sheet(book, mark, sheet)
}
