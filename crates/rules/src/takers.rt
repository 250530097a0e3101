// Whether one party has taken two tasks at odds in one open case.
ghost use Rattle.std.specs.Prelude.{ℕ, ◌<◌};
ghost use Rattle.facts.specs.Stores.{Decides};
ghost use Rattle.rules.specs.Inquiries.{facts_of, Looks, Walks};
ghost use Rattle.rules.specs.Judging.{Breaks};
ghost use Rattle.rules.specs.Roles.{Party};
ghost use Rattle.rules.specs.Tasks.{Open, AtOdds, HasTaken};
ghost use Rattle.rules.specs.declared.rule.Rule.TheVariants.{TakersApart};

use crate::inquiry::{Inquiry, Trial};
use facts::fact::{Fact, Kind};
use facts::store::Store;

// The users of one party with a user who have taken the task in the case.
#[derive(Clone, Copy)]
struct Partners {
    case: u8,
    task: u8,
    user: u8,
}

impl Trial for Partners {
    ghost shows = { λ q m v. HasTaken m q.case q.task v × Party m q.user v };

    fn run<S: Store>(&self, inquiry: &mut Inquiry<S>, n: u8) -> bool {
        inquiry.has_taken(self.case, self.task, n) && inquiry.party(self.user, n)
    }
}

// The users who have taken the one task in the case, and whose party has taken the other.
#[derive(Clone, Copy)]
struct Takers {
    case: u8,
    one: u8,
    other: u8,
}

impl Trial for Takers {
    ghost shows = { λ q m u. HasTaken m q.case q.one u
        × ((v : ℕ) × (v < 128) × (HasTaken m q.case q.other v × Party m u v)) };

    fn run<S: Store>(&self, inquiry: &mut Inquiry<S>, n: u8) -> bool {
        let partners = Partners {
            case: self.case,
            task: self.other,
            user: n,
        };
        inquiry.has_taken(self.case, self.one, n) && inquiry.any(&partners, 128)
    }
}

// The open cases in which one party has taken both tasks.
#[derive(Clone, Copy)]
struct Cases {
    one: u8,
    other: u8,
}

impl Trial for Cases {
    ghost shows = { λ q m c. Open m c
        × ((u : ℕ) × (u < 128) × (HasTaken m c q.one u
        × ((v : ℕ) × (v < 128) × (HasTaken m c q.other v × Party m u v)))) };

    fn run<S: Store>(&self, inquiry: &mut Inquiry<S>, n: u8) -> bool {
        let takers = Takers {
            case: n,
            one: self.one,
            other: self.other,
        };
        inquiry.is_open(n) && inquiry.any(&takers, 128)
    }
}

// The tasks at odds with a task that the same party has taken in an open case.
#[derive(Clone, Copy)]
struct Odds(u8);

impl Trial for Odds {
    ghost shows = { λ q m t. AtOdds m q.0 t × ((c : ℕ) × (c < 32) × (Open m c
        × ((u : ℕ) × (u < 128) × (HasTaken m c q.0 u
        × ((v : ℕ) × (v < 128) × (HasTaken m c t v × Party m u v)))))) };

    fn run<S: Store>(&self, inquiry: &mut Inquiry<S>, n: u8) -> bool {
        let cases = Cases {
            one: self.0,
            other: n,
        };
        inquiry.at_odds(self.0, n) && inquiry.any(&cases, 32)
    }
}

impl<'s, 'm, S: Store> Inquiry<'s, 'm, S> {
    pub(crate) fn is_open(&mut self, case: u8) -> bool
        ensures value { S.sound self.old.store.now → Decides result (Open (facts_of self.old) case) }
        ensures looks { Looks self.old self.new }
    {
        self.has(Fact::new(Kind::OpenCase, case, 0, 0))
    }

    pub(crate) fn has_taken(&mut self, case: u8, task: u8, user: u8) -> bool
        ensures value { S.sound self.old.store.now → Decides result (HasTaken (facts_of self.old) case task user) }
        ensures looks { Looks self.old self.new }
    {
        self.has(Fact::new(Kind::Taken, case, task, user))
    }

    fn at_odds(&mut self, t: u8, q: u8) -> bool
        ensures value { S.sound self.old.store.now → Decides result (AtOdds (facts_of self.old) t q) }
        ensures looks { Looks self.old self.new }
    {
        self.pairs(Kind::AtOdds, t, q)
    }

    // Whether a party has taken the task and one at odds with it in one open case.
    #[tactic(auto, using(crate::proofs::Broken::decides_took))]
    pub(crate) fn party_took_both(&mut self, task: u8) -> bool
        ensures value { S.sound self.old.store.now → Decides result (Breaks TakersApart (facts_of self.old) task) }
        ensures walks { Walks self.old self.new }
    {
        self.any(&Odds(task), 32)
    }
}
