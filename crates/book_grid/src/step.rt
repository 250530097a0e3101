// One call of a store as a value, and what came of it.
ghost use Rattle.book_grid.specs.Steps.{Does};

use facts::fact::Fact;
use facts::refusal::Refusal;
use facts::store::Store;
use std::fmt;
use words::InWords;

// An enum and no closure, since a step is printed too.
#[derive(Clone, Copy)]
pub enum Step {
    Put(Fact),
    Has(Fact),
    Take(Fact),
    Empty,
}

#[derive(Clone, Copy)]
pub enum Answer {
    Put(Result<(), Refusal>),
    Is(bool),
    Taken,
}

impl Step {
    pub(crate) fn run<S: Store>(self, store: &mut S) -> Answer
        ensures kept { S.sound store.old → S.sound store.new }
        ensures outside { S.outside store.old store.new }
        ensures does { S.sound store.old
            → Does self (S.facts store.old) (S.spare store.old) result
            (S.facts store.new) (S.spare store.new) }
    {
        match self {
            Step::Put(fact) => Answer::Put(store.put(fact)),
            Step::Has(fact) => Answer::Is(store.has(fact)),
            Step::Take(fact) => {
                store.take(fact);
                Answer::Taken
            }
            Step::Empty => Answer::Is(store.empty()),
        }
    }
}

impl fmt::Display for Step {
    fn fmt<W: fmt::Write>(&self, f: &mut fmt::Formatter<W>) -> fmt::Result {
        match *self {
            Step::Put(fact) => write!(f, "put: {}", InWords(fact)),
            Step::Has(fact) => write!(f, "has: {}", InWords(fact)),
            Step::Take(fact) => write!(f, "take: {}", InWords(fact)),
            Step::Empty => write!(f, "empty"),
        }
    }
}

impl fmt::Display for Answer {
    fn fmt<W: fmt::Write>(&self, f: &mut fmt::Formatter<W>) -> fmt::Result {
        match *self {
            Answer::Put(Ok(_)) => write!(f, "accepted"),
            Answer::Put(Err(refusal)) => write!(f, "refused, {}", u8::from(refusal)),
            Answer::Is(true) => write!(f, "yes"),
            Answer::Is(false) => write!(f, "no"),
            Answer::Taken => write!(f, "done"),
        }
    }
}
