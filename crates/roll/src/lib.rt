// The roll: all customers of a book, or its refusal.
#![tactic(auto)]

ghost use Rattle.std.specs.Prelude.{◌≡◌, ◌-◌, ◌≤◌, length, take, drop};
ghost use Rattle.rules.specs.Limits.{most_customers};
ghost use Rattle.rules.specs.Fields.{fields_of};
ghost use Rattle.codes.specs.Codes.{Marked};
ghost use Rattle.fields.specs.Ranges.{Short};
ghost use Rattle.terms.specs.Ranges.{Sound};
ghost use Rattle.rules.specs.Book.{judge};
ghost use Rattle.roll.specs.Roll.{no_roll, byte_of, stake_as, code_at, customer_at, end_at, ended_with, verdict_from, Room, columns, Left, filled_from, filled_by};

use codes::Code;
use fields::{Found, Refusal};
use group::GroupAt;
use rules::{Standing, Terms, refusal, tag};
use terms::TermsAt;

// Either a refusal, or number 0, how many customers the columns hold, and whether the contract is locked at its lower limit.
#[derive(Clone, Copy)]
pub struct Roll {
    pub refusal: Refusal,
    pub count: usize,
    pub down: bool,
}

// The key of a new customer.
#[derive(Clone, Copy)]
pub enum CodeAt {
    Key(u64),
    Refused(Refusal),
}

// A new customer: its key, where its group ends, its standing's byte and its stake.
#[derive(Clone, Copy)]
pub enum CustomerAt {
    New {
        key: u64,
        place: usize,
        standing: u8,
        stake: u32,
    },
    Refused(Refusal),
}

fn refused(number: u64, place: usize) -> Roll
    ensures { result ≡ no_roll number place }
{
    Roll {
        refusal: Refusal { number, place },
        count: 0,
        down: false,
    }
}

fn byte_of(standing: Standing) -> u8
    ensures { result ≡ byte_of standing }
{
    match standing {
        Standing::Pending => 0,
        Standing::Tier1 => 1,
        Standing::Tier2 => 2,
        Standing::Tier3 => 3,
        Standing::Neither => 4,
    }
}

// What a customer has at stake: what it offers, or what it has pending.
fn stake_of(standing: Standing, offered: u32, pending: u32) -> u32
    ensures { result ≡ stake_as standing offered pending }
{
    match standing {
        Standing::Pending => pending,
        Standing::Tier1 => offered,
        Standing::Tier2 => offered,
        Standing::Tier3 => offered,
        Standing::Neither => 0,
    }
}

// 10, 5 and 7 at a C, whose value stands from start to end.
fn code_at(
    book: &[u8],
    keys: &[u64],
    marks: &[u8; codes::MARKS],
    count: usize,
    at: usize,
    start: usize,
    end: usize,
) -> CodeAt
    requires fact_1 { (start ≤ end) × (end ≤ length book.now) }
    requires fact_2 { count ≤ length keys.now }
    requires fact_3 { Marked keys.now marks.now count }
    ensures { result ≡ code_at at count (take count keys.now) (take (end - start) (drop start book.now)) }
{
    if rules::MOST_CUSTOMERS <= count {
        return CodeAt::Refused(Refusal {
            number: refusal::TOO_MANY,
            place: at,
        });
    }
    match codes::read_code(&book[start..end]) {
        Code::Key(key) => {
            if codes::known(keys, marks, count, key) {
                return CodeAt::Refused(Refusal {
                    number: refusal::GIVEN_BEFORE,
                    place: at,
                });
            }
            CodeAt::Key(key)
        }
        Code::Malformed => CodeAt::Refused(Refusal {
            number: refusal::MALFORMED,
            place: at,
        }),
    }
}

// 10, 5 and 7 at a C, whose value stands from start to end, and the group behind it.
fn customer_at(
    book: &[u8],
    terms: Terms,
    keys: &[u64],
    marks: &[u8; codes::MARKS],
    count: usize,
    at: usize,
    start: usize,
    end: usize,
) -> CustomerAt
    requires fact_1 { Short book.now }
    requires fact_2 { Sound terms }
    requires fact_3 { (start ≤ end) × (end ≤ length book.now) }
    requires fact_4 { count ≤ length keys.now }
    requires fact_5 { Marked keys.now marks.now count }
    ensures { result ≡ customer_at book.now terms keys.now count at start end }
{
    match code_at(book, keys, marks, count, at, start, end) {
        CodeAt::Key(key) => match group::read_group(book, terms, at, end) {
            GroupAt::Closed {
                place,
                standing,
                offered,
                pending,
            } => CustomerAt::New {
                key,
                place,
                standing: byte_of(standing),
                stake: stake_of(standing, offered, pending),
            },
            GroupAt::Refused(r) => CustomerAt::Refused(r),
        },
        CodeAt::Refused(r) => CustomerAt::Refused(r),
    }
}

// 5 and 3 at Z, whose value stands from start to end; number 0 where the book ends there.
fn end_at(book: &[u8], at: usize, start: usize, end: usize) -> Refusal
    ensures { result ≡ end_at at start end (length book.now) }
{
    if start < end {
        return Refusal {
            number: refusal::MALFORMED,
            place: at,
        };
    }
    if end < book.len() {
        return Refusal {
            number: refusal::MISPLACED,
            place: end,
        };
    }
    Refusal {
        number: refusal::ACCEPTED,
        place: 0,
    }
}

// The roll of a book that ends with so many customers read and is locked so, or its refusal there.
fn ended(last: Refusal, count: usize, down: bool) -> Roll
    ensures { result ≡ ended_with last count down }
{
    if last.number == refusal::ACCEPTED {
        return Roll {
            refusal: last,
            count,
            down,
        };
    }
    refused(last.number, last.place)
}

// The customers of a book under its terms, from a place on, into the columns.
fn read_customers(
    book: &[u8],
    terms: Terms,
    first: usize,
    keys: &mut [u64],
    starts: &mut [u16],
    standings: &mut [u8],
    stakes: &mut [u32],
) -> Roll
    requires fact_1 { Short book.now }
    requires fact_2 { Sound terms }
    requires fact_3 { Room keys.old starts.old standings.old stakes.old }
    ensures { Left book.now (verdict_from terms first (fields_of (drop first book.now))) (filled_from most_customers book.now terms first 0 (columns keys.old starts.old standings.old stakes.old)) keys.new starts.new standings.new stakes.new result }
{
    let mut marks = [0u8; codes::MARKS];
    let mut count: usize = 0;
    let mut at = first;
    loop {
        let Found::Field { tag, start, end } = fields::field_at(book, at) else {
            return refused(refusal::CUT_SHORT, at);
        };
        if tag == tag::Z {
            let last = end_at(book, at, start, end);
            return ended(last, count, terms.down);
        }
        if tag != tag::C {
            return refused(refusal::MISPLACED, at);
        }
        match customer_at(book, terms, keys, &marks, count, at, start, end) {
            CustomerAt::New {
                key,
                place,
                standing,
                stake,
            } => {
                keys[count] = key;
                let mark = codes::mark_of(key);
                marks[mark] = 1;
                starts[count] = start as u16;
                standings[count] = standing;
                stakes[count] = stake;
                count += 1;
                at = place;
            }
            CustomerAt::Refused(r) => return refused(r.number, r.place),
        }
    }
}

// All customers of a book, into the columns, or its refusal with numbers 1 to 10, 12 and 13.
pub fn read_roll(
    book: &[u8],
    keys: &mut [u64],
    starts: &mut [u16],
    standings: &mut [u8],
    stakes: &mut [u32],
) -> Roll
    requires { Room keys.old starts.old standings.old stakes.old }
    ensures { Left book.now (judge book.now) (filled_by book.now (columns keys.old starts.old standings.old stakes.old)) keys.new starts.new standings.new stakes.new result }
{
    if rules::LONGEST_BOOK < book.len() {
        return refused(refusal::TOO_LONG, 0);
    }
    match terms::read_terms(book) {
        TermsAt::Read { terms, next } => {
            read_customers(book, terms, next, keys, starts, standings, stakes)
        }
        TermsAt::Refused(r) => refused(r.number, r.place),
    }
}
