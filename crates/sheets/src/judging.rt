// What a book is judged to be, by its own table.
ghost use Rattle.rules.specs.Book.{judge};
ghost use Rattle.sheets.specs.Shown.{JudgedSo};

use fields::Refusal;
use rules::MOST_CUSTOMERS;
use rules::refusal::ACCEPTED;

// The refusal of a book that is none.
pub fn judge(book: &[u8]) -> Result<(), Refusal>
    ensures { JudgedSo (judge book.now) result }
{
    let mut keys = [0u64; MOST_CUSTOMERS];
    let mut starts = [0u16; MOST_CUSTOMERS];
    let mut standings = [0u8; MOST_CUSTOMERS];
    let mut stakes = [0u32; MOST_CUSTOMERS];
    let roll = roll::read_roll(book, &mut keys, &mut starts, &mut standings, &mut stakes);
    if roll.refusal.number == ACCEPTED {
        Ok(())
    } else {
        Err(roll.refusal)
    }
}
