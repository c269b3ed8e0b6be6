// The line that begins at a place, by where its parts end.
ghost use Rattle.std.specs.Prelude.{◌≡◌, ◌≤◌, ◌<◌, ◌+◌, length, drop, position};
ghost use Rattle.sheets.specs.Places.{stops, stopless, leads, Begun, Shows, PartUpTo};

// Where the four parts behind a letter end.
#[derive(Clone, Copy)]
pub struct Parts {
    pub first: usize,
    pub second: usize,
    pub third: usize,
    pub end: usize,
}

// A line of one part behind its letter, or of four.
#[derive(Clone, Copy)]
pub enum Line {
    One { tag: u8, end: usize },
    Four { tag: u8, parts: Parts },
}

// A byte that ends a part.
fn stops(byte: u8) -> bool
    ensures { result ≡ stops byte }
{
    matches!(byte, b'\n' | b';')
}

fn first_stop(bytes: &[u8]) -> Option<usize>
    ensures { result ≡ position stops bytes.now }
{
    bytes.iter().position(|byte| stops(*byte))
}

// Where the part ends that begins at a place, or the end of the sheet.
fn stop_at(sheet: &[u8], from: usize) -> usize
    requires { from ≤ length sheet.now }
    ensures { (result ≡ from + length (stopless (drop from sheet.now))) × (result ≤ length sheet.now) }
{
    let rest = &sheet[from..];
    from + first_stop(rest).unwrap_or(rest.len())
}

// Whether a byte stands at a place.
fn stands_at(sheet: &[u8], at: usize, byte: u8) -> bool
    ensures { result ≡ leads byte (drop at sheet.now) }
{
    sheet.get(at) == Some(&byte)
}

// Where the part ends that begins at a place, if this byte ends it.
fn part_up_to(sheet: &[u8], from: usize, byte: u8) -> Option<usize>
    requires { from ≤ length sheet.now }
    ensures { PartUpTo sheet.now from byte result }
{
    let end = stop_at(sheet, from);
    if stands_at(sheet, end, byte) {
        Some(end)
    } else {
        None
    }
}

// The second to the fourth part, where the first ends at a semicolon.
fn four_at(sheet: &[u8], at: usize, first: usize) -> Option<Line>
    requires { Begun sheet.now at first }
    ensures { Shows sheet.now at result }
{
    let second = part_up_to(sheet, first + 1, b';')?;
    let third = part_up_to(sheet, second + 1, b';')?;
    let end = part_up_to(sheet, third + 1, b'\n')?;
    Some(Line::Four {
        tag: sheet[at],
        parts: Parts {
            first,
            second,
            third,
            end,
        },
    })
}

// Any other line is none, and so is one that no line feed ends.
pub fn line_at(sheet: &[u8], at: usize) -> Option<Line>
    requires { at < length sheet.now }
    ensures { Shows sheet.now at result }
{
    let letter = part_up_to(sheet, at, b';')?;
    if letter != at + 1 {
        return None;
    }
    let end = stop_at(sheet, letter + 1);
    if stands_at(sheet, end, b'\n') {
        return Some(Line::One {
            tag: sheet[at],
            end,
        });
    }
    if !stands_at(sheet, end, b';') {
        return None;
    }
    four_at(sheet, at, end)
}
