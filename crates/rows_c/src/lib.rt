// The call worked in rows, for C: that of `rows`, whose clauses it states again.
#![tactic(auto)]

ghost use Rattle.std.specs.Prelude.{length};
ghost use Rattle.rules.specs.Answer.{answer};
ghost use Rattle.answers.specs.Answered.{Answered};

use answers::Answer;

#[unsafe(no_mangle)]
pub extern "C" fn frundavel_allot_in_rows(book: &[u8], report: &mut [u8]) -> Answer
    ensures { Answered (answer book.now (length report.old)) result report.old report.new }
{
    rows::frundavel_allot_in_rows(book, report)
}
