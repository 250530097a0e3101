// A fact as a sentence.
#![tactic(auto)]

ghost use Rattle.std.specs.Prelude.{◌≡◌};
ghost use Rattle.words.specs.Words.{noun};

use facts::fact::{Entry, Fact, Kind};
use std::fmt;

#[derive(Clone, Copy)]
pub struct InWords(pub Fact);

// Not `Display`: what an entry is called is promised, and printing promises nothing.
fn noun(entry: Entry) -> &'static str
    ensures { result.now ≡ noun entry }
{
    match entry {
        Entry::User => "user",
        Entry::Role => "role",
        Entry::Permission => "permission",
        Entry::Task => "task",
        Entry::Case => "case",
        Entry::Unused => "nothing",
    }
}

impl fmt::Display for InWords {
    fn fmt<W: fmt::Write>(&self, f: &mut fmt::Formatter<W>) -> fmt::Result {
        let Fact { kind, a, b, c } = self.0;
        let Some(kind) = self.0.kind_of_fact() else {
            return write!(f, "{kind} {a} {b} {c}, which is no fact");
        };
        let (first, _, _) = kind.entries();
        let first = noun(first);
        match kind {
            Kind::UserRole | Kind::PermissionRole | Kind::TaskRole => write!(
                f,
                "{first} {a} is assigned to role {b}"
            ),
            Kind::Senior => write!(f, "role {a} is directly senior to role {b}"),
            Kind::AtOdds => write!(f, "tasks {a} and {b} are at odds"),
            Kind::OpenCase => write!(f, "case {a} is open"),
            Kind::Taken => write!(f, "in case {a} user {c} took task {b}"),
            Kind::Finished => write!(f, "in case {a} task {b} is finished"),
            _ => write!(f, "{first}s {a} and {b} conflict"),
        }
    }
}
