// The figures of Articles 12 and 13: one row for each metal and span.
ghost use Rattle.std.specs.Prelude.{◌≡◌, ◌<◌};
ghost use Rattle.watch.specs.Table.{first_row, row_at};

use days::Metal;

// A span of so many days, and the percentages that price and open interest must reach over it.
#[derive(Clone, Copy)]
pub struct Row {
    pub days: usize,
    pub price: u64,
    pub interest: u64,
}

// The spans of 3, 4 and 5 days: gold's, then silver's.
const TABLE: [Row; 6] = [
    Row {
        days: 3,
        price: 10,
        interest: 30,
    },
    Row {
        days: 4,
        price: 12,
        interest: 35,
    },
    Row {
        days: 5,
        price: 14,
        interest: 40,
    },
    Row {
        days: 3,
        price: 12,
        interest: 30,
    },
    Row {
        days: 4,
        price: 15,
        interest: 35,
    },
    Row {
        days: 5,
        price: 17,
        interest: 40,
    },
];

// Where a metal's rows begin.
fn first_row(metal: Metal) -> usize
    ensures { result ≡ first_row metal }
{
    match metal {
        Metal::Gold => 0,
        Metal::Silver => 3,
    }
}

// A metal's row for its shortest span, the next or the longest.
#[tactic(auto, unfolding(crate::specs::Table::row_at))]
pub fn row_of(metal: Metal, span: usize) -> Row
    requires { span < 3 }
    ensures { result ≡ row_at metal span }
{
    TABLE[first_row(metal) + span]
}
