// Why a store refuses a fact.
ghost use Rattle.std.specs.Prelude.{◌≡◌};
ghost use Rattle.facts.specs.Stores.{refusal_number};

use std::error::Error;
use std::fmt;

// The reasons, with the number of each.
#[derive(Clone, Copy, PartialEq, Eq, Debug)]
pub enum Refusal {
    // Four numbers that are no fact.
    NoFact = 1,
    // An absent fact, and the spare is 0.
    Full = 23,
}

impl From<Refusal> for u8 {
    ghost from_gives = { λ refusal n. n ≡ refusal_number refusal };

    fn from(refusal: Refusal) -> u8 {
        refusal as u8
    }
}

impl fmt::Display for Refusal {
    fn fmt<W: fmt::Write>(&self, f: &mut fmt::Formatter<W>) -> fmt::Result {
        f.write_str(match self {
            Refusal::NoFact => "the four numbers are no fact",
            Refusal::Full => "the store has no spare",
        })
    }
}

impl Error for Refusal {}
