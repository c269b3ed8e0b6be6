// A list of days, read line by line: its metal, and the days, in the short form of request [11] or in the longer one of request [12]. One
// reader serves both.
#![tactic(auto)]

mod line;
mod part;
pub mod refusal;

ghost use Rattle.std.specs.Prelude.{◌≡◌, ◌≤◌, length, drop, MatchResult};
ghost use Rattle.std.specs.Iterator.{YieldsFirst, item_count};
ghost use Rattle.days.specs.Lines.{lines_of, feeds};
ghost use Rattle.days.specs.Listed.{days_from, verdict_of};
ghost use Rattle.days.specs.Places.{metal_of, head_of, next_of, count_of, days_left, IsTaken, IsNotTaken};

use line::read_day;
use part::first_at;
use refusal::{ListRule, Refusal};
use rules::{Fen, Lots, Rate};

#[derive(Clone, Copy, Debug, PartialEq, Eq)]
pub enum Metal {
    Gold,
    Silver,
}

// How a day ended: not locked, locked up, locked down.
#[derive(Clone, Copy, Debug, PartialEq, Eq)]
pub enum Mark {
    Unlocked,
    Up,
    Down,
}

// A day: settlement price and open interest; in the short form it is not locked, and its price limit is not known.
#[derive(Clone, Copy)]
pub struct Day {
    pub price: Fen,
    pub interest: Lots,
    pub mark: Mark,
    pub limit: Option<Rate>,
}

// A day, and where the next may begin.
#[derive(Clone, Copy)]
pub struct NextDay {
    pub day: Day,
    pub next: usize,
}

// The metal of a list, and where its first day begins.
#[derive(Clone, Copy)]
pub struct Head {
    pub metal: Metal,
    pub start: usize,
}

// The days of a list from a place on. Behind a line that is no day none is read. A copy reads the same ones again.
#[derive(Clone, Copy)]
pub struct Days<'a> {
    list: &'a [u8],
    at: usize,
    long: bool,
}

// An accepted list: its metal, where its first day begins, its days, and how many they are.
#[derive(Clone, Copy)]
pub struct DayList<'a> {
    pub metal: Metal,
    pub start: usize,
    pub days: Days<'a>,
    pub count: usize,
}

// "over 2,001 line feeds": the first line, and 2,000 days.
const MOST_FEEDS: usize = 2_001;

// How many line feeds there are.
pub fn count_feeds(s: &[u8]) -> usize
    ensures { (result ≡ feeds s.now) × (result ≤ length s.now) }
{
    let mut count = 0;
    for x in s {
        count += usize::from(*x == b'\n');
    }
    count
}

// The metal that has a name.
fn metal_of(name: &[u8]) -> Option<Metal>
    ensures { result ≡ metal_of name.now }
{
    if name == b"gold".as_slice() {
        Some(Metal::Gold)
    } else if name == b"silver".as_slice() {
        Some(Metal::Silver)
    } else {
        None
    }
}

// The first line: the metal.
fn read_head(s: &[u8]) -> Option<Head>
    ensures { result ≡ head_of s.now }
{
    let end = first_at(s, b'\n')?;
    let metal = metal_of(&s[..end])?;
    Some(Head {
        metal,
        start: end + 1,
    })
}

// The day that begins at a place, or none where the list ends there.
pub fn next_day(s: &[u8], at: usize, long: bool) -> Option<Result<NextDay, ListRule>>
    ensures { result ≡ next_of long s.now at }
{
    if s.len() <= at {
        return None;
    }
    let rest = &s[at..];
    let Some(end) = first_at(rest, b'\n') else {
        return Some(Err(ListRule::NoDay));
    };
    Some(read_day(&rest[..end], long).map(|day| NextDay {
        day,
        next: at + end + 1,
    }))
}

impl<'a> Iterator for Days<'a> {
    type Item = Result<Day, ListRule>;

    ghost next_gives = { YieldsFirst days_left };

    ghost remaining = { item_count days_left };

    // As `next_day`, whose answer would be copied once more, which the time of a list shows.
    fn next(&mut self) -> Option<Result<Day, ListRule>> {
        let list = self.list;
        let at = self.at;
        if list.len() <= at {
            return None;
        }
        let rest = &list[at..];
        let Some(end) = first_at(rest, b'\n') else {
            self.at = list.len();
            return Some(Err(refusal::ListRule::NoDay));
        };
        let day = read_day(&rest[..end], self.long);
        self.at = if day.is_ok() {
            at + end + 1
        } else {
            list.len()
        };
        Some(day)
    }
}

// How many days there are, where the first of them begins at a place.
fn count_days(s: &[u8], start: usize, long: bool) -> Result<usize, Refusal>
    requires { start ≤ length s.now }
    ensures { result ≡ count_of (days_from long 1 (lines_of (drop start s.now))) }
{
    let days = Days {
        list: s,
        at: start,
        long,
    };
    let mut count = 0;
    for day in days {
        if let Err(rule) = day {
            return Err(Refusal {
                rule,
                place: count + 1,
            });
        }
        count += 1;
    }
    Ok(count)
}

// What a list comes to, where it has so many line feeds in all.
pub fn judge(s: &[u8], total: usize, long: bool) -> Result<DayList, Refusal>
    ensures { MatchResult result (IsTaken long s.entry (verdict_of long total s.now)) (IsNotTaken (verdict_of long total s.now)) }
{
    if MOST_FEEDS < total {
        return Err(Refusal {
            rule: ListRule::TooManyDays,
            place: 0,
        });
    }
    let Some(head) = read_head(s) else {
        return Err(Refusal {
            rule: ListRule::NoDay,
            place: 0,
        });
    };
    let days = Days {
        list: s,
        at: head.start,
        long,
    };
    Ok(DayList {
        metal: head.metal,
        start: head.start,
        days,
        count: count_days(s, head.start, long)?,
    })
}
