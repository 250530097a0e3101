// Why a question about roles, or a judgement, is refused.
ghost use Rattle.std.specs.Prelude.{◌≡◌, ◌<◌, MatchResult};
ghost use Rattle.facts.specs.Facts.{size};
ghost use Rattle.facts.specs.Stores.{Decides};
ghost use Rattle.rules.specs.Calls.{refusal_number};
ghost use Rattle.rules.specs.Changes.{Proper};

use crate::change::Change;
use facts::fact::Entry;
use std::error::Error;
use std::fmt;

// The reasons, with the number of each.
#[derive(Clone, Copy, PartialEq, Eq, Debug)]
pub enum Refusal {
    // A number that is no user, role or permission, or a change that names no fact.
    OutOfRange = 1,
    // A sheet of fewer than 64 bytes.
    ShortSheet = 2,
}

impl From<Refusal> for u8 {
    ghost from_gives = { λ refusal n. n ≡ refusal_number refusal };

    fn from(refusal: Refusal) -> u8 {
        refusal as u8
    }
}

impl fmt::Display for Refusal {
    fn fmt<W: fmt::Write>(&self, f: &mut fmt::Formatter<W>) -> fmt::Result {
        f.write_str(match self {
            Refusal::OutOfRange => "a number is out of its range, or names no fact",
            Refusal::ShortSheet => "the sheet is shorter than 64 bytes",
        })
    }
}

impl Error for Refusal {}

// Lets two numbers in that are in their ranges.
pub(crate) fn admit(first: Entry, x: u32, second: Entry, y: u32) -> Result<(u8, u8), Refusal>
    ensures { MatchResult result (λ p. (x < size first) × (y < size second) × (p ≡ (x, y)))
        (λ e. (e ≡ Refusal.OutOfRange) × ¬ ((x < size first) × (y < size second))) }
{
    if x < first.size().into() && y < second.size().into() {
        Ok((x as u8, y as u8))
    } else {
        Err(Refusal::OutOfRange)
    }
}

impl Change {
    // Whether what the change names is a fact.
    fn is_proper(self) -> bool
        ensures { Decides result (Proper self) }
    {
        match self {
            Change::Nothing => true,
            Change::Add(fact) | Change::Remove(fact) => fact.is_fact(),
        }
    }

    // Lets a change in that names a fact.
    pub(crate) fn admit(self) -> Result<(), Refusal>
        ensures { MatchResult result (λ _. Proper self) (λ e. (e ≡ Refusal.OutOfRange) × ¬ (Proper self)) }
    {
        if self.is_proper() {
            Ok(())
        } else {
            Err(Refusal::OutOfRange)
        }
    }
}
