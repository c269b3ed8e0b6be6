// Reads the terms of a book.
#![tactic(auto)]

ghost use Rattle.std.specs.Prelude.{◌≡◌, cond, drop};
ghost use Rattle.rules.specs.Fields.{fields_of};
ghost use Rattle.terms.specs.Terms.{letter_from, after_lock, after_places, after_loss, terms_of};

use fields::{FigureAt, Found, Refusal};
use rules::{Fen, Rate, Terms, refusal, tag};

// Which of two letters the one byte of a field is, and the place after the field.
#[derive(Clone, Copy)]
pub enum LetterAt {
    Chosen { first: bool, next: usize },
    Refused(Refusal),
}

#[derive(Clone, Copy)]
pub enum TermsAt {
    Read { terms: Terms, next: usize },
    Refused(Refusal),
}

fn no_letter(number: u64, place: usize) -> LetterAt
    ensures { result ≡ LetterAt.Refused (record { number = number; place = place }) }
{
    LetterAt::Refused(Refusal { number, place })
}

// The field that is due at a place, with this tag and one of two letters.
fn letter_at(book: &[u8], at: usize, tag: u8, first: u8, second: u8) -> LetterAt
    ensures { result ≡ letter_from at tag first second (fields_of (drop at book.now)) }
{
    let Found::Field {
        tag: found,
        start,
        end,
    } = fields::field_at(book, at)
    else {
        return no_letter(refusal::CUT_SHORT, at);
    };
    if found != tag {
        return no_letter(refusal::MISPLACED, at);
    }
    if end != start + 1 {
        return no_letter(refusal::MALFORMED, at);
    }
    if book[start] == first {
        return LetterAt::Chosen {
            first: true,
            next: end,
        };
    }
    if book[start] == second {
        return LetterAt::Chosen {
            first: false,
            next: end,
        };
    }
    no_letter(refusal::MALFORMED, at)
}

// The terms of a book, and the place after them. D is at its front.
pub fn read_terms(book: &[u8]) -> TermsAt
    ensures { result ≡ terms_of book.now }
{
    match letter_at(book, 0, tag::D, b'D', b'U') {
        LetterAt::Chosen { first, next } => terms_after(book, first, next),
        LetterAt::Refused(r) => TermsAt::Refused(r),
    }
}

// "one byte 0 or 2"
fn decimals_of(none: bool) -> usize
    ensures { result ≡ cond none 0 2 }
{
    if none { 0 } else { 2 }
}

// X, and the terms after it, where D says how the contract is locked.
fn terms_after(book: &[u8], down: bool, at: usize) -> TermsAt
    ensures { result ≡ after_lock book.now down at }
{
    match letter_at(book, at, tag::X, b'0', b'2') {
        LetterAt::Chosen { first, next } => prices_after(book, down, decimals_of(first), next),
        LetterAt::Refused(r) => TermsAt::Refused(r),
    }
}

// S, L, U and V, where X says how many decimals a price has.
fn prices_after(book: &[u8], down: bool, decimals: usize, at: usize) -> TermsAt
    ensures { result ≡ after_places book.now down decimals at }
{
    let s = fields::figure_at(book, at, tag::S, figures::price_form(decimals));
    let FigureAt::Value {
        number: price,
        next: at_l,
    } = s
    else {
        return TermsAt::Refused(fields::refusal_in(s));
    };
    let l = fields::figure_at(book, at_l, tag::L, figures::RATE);
    let FigureAt::Value {
        number: loss,
        next: at_u,
    } = l
    else {
        return TermsAt::Refused(fields::refusal_in(l));
    };
    edges_after(book, down, decimals, Fen(price), Rate(loss), at_u)
}

// U and V, where the terms before them are read.
fn edges_after(
    book: &[u8],
    down: bool,
    decimals: usize,
    settlement: Fen,
    loss: Rate,
    at: usize,
) -> TermsAt
    ensures { result ≡ after_loss book.now down decimals settlement loss at }
{
    let u = fields::figure_at(book, at, tag::U, figures::RATE);
    let FigureAt::Value {
        number: edge1,
        next: at_v,
    } = u
    else {
        return TermsAt::Refused(fields::refusal_in(u));
    };
    let v = fields::figure_at(book, at_v, tag::V, figures::RATE);
    let FigureAt::Value {
        number: edge2,
        next,
    } = v
    else {
        return TermsAt::Refused(fields::refusal_in(v));
    };
    if edge1 <= edge2 {
        return TermsAt::Refused(Refusal {
            number: refusal::EDGES,
            place: at_v,
        });
    }
    TermsAt::Read {
        terms: Terms {
            down,
            decimals,
            settlement,
            loss,
            edge1: Rate(edge1),
            edge2: Rate(edge2),
        },
        next,
    }
}
