// "Refusal numbers" of a list of days, requests [11] and [12]: the rules that a list can break, in the order of their numbers.
ghost use Rattle.std.specs.Prelude.{◌≡◌};
ghost use Rattle.days.specs.Refusal.{number_of};

// A rule that is broken.
#[derive(Clone, Copy, Debug, PartialEq, Eq)]
pub enum ListRule {
    // More than 2,001 line feeds.
    TooManyDays = 30,
    // A zero price or zero open interest.
    Zero,
    // Another letter as the mark.
    OtherMark,
    NoDay,
}

impl ListRule {
    // The number that the table of refusals gives it.
    pub fn number(self) -> u64
        ensures { result ≡ number_of self }
    {
        self as u64
    }
}

// A list that is refused: the rule, and the number of the day that breaks it, which is 0 for the first line.
#[derive(Clone, Copy, Debug, PartialEq, Eq)]
pub struct Refusal {
    pub rule: ListRule,
    pub place: usize,
}
