// The answer of every call for C: a number, a place and a length.
#![tactic(auto)]

ghost use Rattle.std.specs.Prelude.{◌≡◌};

use rules::refusal::ACCEPTED;

// Accepted: 0, place 0 and how much was put into what was lent. Refused: the number, its place and length 0; for 11 the place is the length
// needed. A refused book that a sheet makes is left there, with its length.
#[repr(C)]
#[derive(Clone, Copy)]
pub struct Answer {
    pub number: u64,
    pub place: u64,
    pub length: u64,
}

impl Answer {
    // What was put into what was lent takes so much of it.
    pub fn accepted(length: usize) -> Answer
        ensures { result ≡ record { number = 0; place = 0; length = length } }
    {
        Answer {
            number: ACCEPTED,
            place: 0,
            length: length as u64,
        }
    }

    // A refusal's number and place.
    pub fn refused(number: u64, place: usize) -> Answer
        ensures { result ≡ record { number = number; place = place; length = 0 } }
    {
        Answer {
            number,
            place: place as u64,
            length: 0,
        }
    }
}
