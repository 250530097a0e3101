// A fact is a kind and three entries, each in the range of its kind.
// Four numbers that are no fact can be written down too: they are what a store refuses.
ghost use Rattle.std.specs.Prelude.{◌≡◌, is_some, if◌then◌else◌, None};
ghost use Rattle.facts.specs.Facts.{size, number, kind_of, entries, fact, in_ranges, is_fact, IsKindOf};

use std::error::Error;
use std::fmt;

// What can stand in an entry.
#[derive(Clone, Copy)]
pub enum Entry {
    User,
    Role,
    Permission,
    Task,
    Case,
    Unused,
}

// What a fact says, with the number of each kind.
#[derive(Clone, Copy, PartialEq, Eq, Debug)]
pub enum Kind {
    UserRole = 1,
    PermissionRole = 2,
    TaskRole = 3,
    Senior = 4,
    UserConflict = 5,
    RoleConflict = 6,
    PermissionConflict = 7,
    TaskConflict = 8,
    AtOdds = 9,
    OpenCase = 10,
    Taken = 11,
    Finished = 12,
}

// The kind is a plain number too: with a `Kind` there, nobody could hand a store what it has to refuse.
#[derive(Clone, Copy, PartialEq, Eq, Debug)]
pub struct Fact {
    pub kind: u8,
    pub a: u8,
    pub b: u8,
    pub c: u8,
}

impl Entry {
    // How many values the entry has, from 0.
    pub fn size(self) -> u8
        ensures { result ≡ size self }
    {
        match self {
            Entry::User => 128,
            Entry::Role => 64,
            Entry::Permission => 64,
            Entry::Task => 32,
            Entry::Case => 32,
            Entry::Unused => 1,
        }
    }
}

// A number that no kind has.
#[derive(Clone, Copy, PartialEq, Eq, Debug)]
pub struct UnknownKind(pub u8);

impl fmt::Display for UnknownKind {
    fn fmt<W: fmt::Write>(&self, f: &mut fmt::Formatter<W>) -> fmt::Result {
        write!(f, "no kind has the number {}", self.0)
    }
}

impl Error for UnknownKind {}

impl From<Kind> for u8 {
    ghost from_gives = { λ kind n. n ≡ number kind };

    fn from(kind: Kind) -> u8 {
        kind as u8
    }
}

impl TryFrom<u8> for Kind {
    type Error = UnknownKind;

    ghost try_from_gives = { IsKindOf };

    fn try_from(number: u8) -> Result<Kind, UnknownKind> {
        match number {
            1 => Ok(Kind::UserRole),
            2 => Ok(Kind::PermissionRole),
            3 => Ok(Kind::TaskRole),
            4 => Ok(Kind::Senior),
            5 => Ok(Kind::UserConflict),
            6 => Ok(Kind::RoleConflict),
            7 => Ok(Kind::PermissionConflict),
            8 => Ok(Kind::TaskConflict),
            9 => Ok(Kind::AtOdds),
            10 => Ok(Kind::OpenCase),
            11 => Ok(Kind::Taken),
            12 => Ok(Kind::Finished),
            _ => Err(UnknownKind(number)),
        }
    }
}

impl Kind {
    pub fn entries(self) -> (Entry, Entry, Entry)
        ensures { result ≡ entries self }
    {
        match self {
            Kind::UserRole => (Entry::User, Entry::Role, Entry::Unused),
            Kind::PermissionRole => (Entry::Permission, Entry::Role, Entry::Unused),
            Kind::TaskRole => (Entry::Task, Entry::Role, Entry::Unused),
            Kind::Senior => (Entry::Role, Entry::Role, Entry::Unused),
            Kind::UserConflict => (Entry::User, Entry::User, Entry::Unused),
            Kind::RoleConflict => (Entry::Role, Entry::Role, Entry::Unused),
            Kind::PermissionConflict => (Entry::Permission, Entry::Permission, Entry::Unused),
            Kind::TaskConflict => (Entry::Task, Entry::Task, Entry::Unused),
            Kind::AtOdds => (Entry::Task, Entry::Task, Entry::Unused),
            Kind::OpenCase => (Entry::Case, Entry::Unused, Entry::Unused),
            Kind::Taken => (Entry::Case, Entry::Task, Entry::User),
            Kind::Finished => (Entry::Case, Entry::Task, Entry::Unused),
        }
    }
}

impl Fact {
    pub fn new(kind: Kind, a: u8, b: u8, c: u8) -> Fact
        ensures { result ≡ fact (number kind) a b c }
    {
        Fact {
            kind: kind.into(),
            a,
            b,
            c,
        }
    }

    // Whether the entries are in the ranges of the kind.
    fn fits(self, kind: Kind) -> bool
        ensures { result ≡ in_ranges kind self }
    {
        let (first, second, third) = kind.entries();
        self.a < first.size() && self.b < second.size() && self.c < third.size()
    }

    // The kind, where the four numbers are a fact.
    #[tactic(auto, using(std::proofs::lemmas::Bool::Decides::nat_tests), unfolding(crate::specs::Facts::is_fact))]
    pub fn kind_of_fact(self) -> Option<Kind>
        ensures kind { result ≡ (if is_fact self then kind_of self.kind else None) }
        ensures told { is_some result ≡ is_fact self }
    {
        let kind = Kind::try_from(self.kind).ok()?;
        self.fits(kind).then_some(kind)
    }

    pub fn is_fact(self) -> bool
        ensures { result ≡ is_fact self }
    {
        self.kind_of_fact().is_some()
    }
}
