// A field of the book at a place, and the figure of the field that is due there.
#![tactic(auto)]

ghost use Rattle.std.specs.Prelude.{◌≡◌, drop};
ghost use Rattle.rules.specs.Figures.{held_form};
ghost use Rattle.rules.specs.Fields.{fields_of};
ghost use Rattle.fields.specs.First.{first_at};
ghost use Rattle.fields.specs.Reading.{refusal_in, due_in, figure_at, figure_from};

use rules::{Figure, Form, refusal};

// What begins at a place: a whole field, whose value is the book's bytes from start to end, or less than one.
#[derive(Clone, Copy)]
pub enum Found {
    Short,
    Field { tag: u8, start: usize, end: usize },
}

// A refusal: its number and its place.
#[derive(Clone, Copy)]
pub struct Refusal {
    pub number: u64,
    pub place: usize,
}

// The figure of the field that is due, and the place after it.
#[derive(Clone, Copy)]
pub enum FigureAt {
    Value { number: u64, next: usize },
    Refused(Refusal),
}

pub fn field_at(book: &[u8], at: usize) -> Found
    ensures { result ≡ first_at at (fields_of (drop at book.now)) }
{
    let n = book.len();
    if n < 3 {
        return Found::Short;
    }
    if n - 3 < at {
        return Found::Short;
    }
    let start = at + 3;
    let size = (book[at + 1] as usize) * 256 + book[at + 2] as usize;
    if n - start < size {
        return Found::Short;
    }
    Found::Field {
        tag: book[at],
        start,
        end: start + size,
    }
}

pub fn refusal_in(f: FigureAt) -> Refusal
    ensures { result ≡ refusal_in f }
{
    match f {
        FigureAt::Value { number: _, next: _ } => Refusal {
            number: refusal::ACCEPTED,
            place: 0,
        },
        FigureAt::Refused(r) => r,
    }
}

// Where the value of the field that is due stands, or what is wrong.
#[derive(Clone, Copy)]
enum DueAt {
    There { start: usize, end: usize },
    Refused(Refusal),
}

fn not_there(number: u64, place: usize) -> DueAt
    ensures { result ≡ DueAt.Refused (record { number = number; place = place }) }
{
    DueAt::Refused(Refusal { number, place })
}

// The field that is due at a place, with this tag.
fn due_at(book: &[u8], at: usize, tag: u8) -> DueAt
    ensures { result ≡ due_in at tag (first_at at (fields_of (drop at book.now))) }
{
    let Found::Field {
        tag: found,
        start,
        end,
    } = field_at(book, at)
    else {
        return not_there(refusal::CUT_SHORT, at);
    };
    if found != tag {
        return not_there(refusal::MISPLACED, at);
    }
    DueAt::There { start, end }
}

fn no_figure(number: u64, place: usize) -> FigureAt
    ensures { result ≡ FigureAt.Refused (record { number = number; place = place }) }
{
    FigureAt::Refused(Refusal { number, place })
}

// What a figure comes to in a field that begins at a place and ends before another.
fn told(figure: Figure, at: usize, next: usize) -> FigureAt
    ensures { result ≡ figure_at at next figure }
{
    match figure {
        Figure::Value(number) => FigureAt::Value { number, next },
        Figure::Comma => no_figure(refusal::COMMA, at),
        Figure::Malformed => no_figure(refusal::MALFORMED, at),
    }
}

// The figure of the field that is due at a place, with this tag.
pub fn figure_at(book: &[u8], at: usize, tag: u8, form: Form) -> FigureAt
    ensures { result ≡ figure_from at tag form (fields_of (drop at book.now)) }
{
    match due_at(book, at, tag) {
        DueAt::There { start, end } => told(figures::read_figure(&book[start..end], form), at, end),
        DueAt::Refused(r) => FigureAt::Refused(r),
    }
}

// The same of a K, an H or a Q.
pub fn held_at(book: &[u8], at: usize, tag: u8) -> FigureAt
    ensures { result ≡ figure_from at tag held_form (fields_of (drop at book.now)) }
{
    match due_at(book, at, tag) {
        DueAt::There { start, end } => told(figures::read_held(&book[start..end]), at, end),
        DueAt::Refused(r) => FigureAt::Refused(r),
    }
}
