// An inquiry: what the facts of a store would be after one change, asked without touching the store, so that a full store
// answers too; and the caller's sheet, on which walks mark roles.
ghost use Rattle.std.specs.Prelude.{◌≡◌, ℕ};
ghost use Rattle.facts.specs.Facts.{Facts};
ghost use Rattle.facts.specs.Stores.{Only};
ghost use Rattle.rules.specs.Changes.{after};

use crate::change::Change;
use crate::role_set::RoleSet;
use facts::fact::{Fact, Kind};
use facts::store::Store;

#[derive(Drop)]
pub(crate) struct Inquiry<'s, 'm, S: Store> {
    pub(crate) store: &'s mut S,
    pub(crate) change: Change,
    pub(crate) marks: &'m mut [u8; 64],
    ghost proper: { (m : Facts) → Only m → Only (after m change) },
}

// What can be asked of each number in turn by look-ups alone. A walk asks in mid-way, so the marks stay; what is tried below
// needs no such promise, and one trait for both would have to make it an argument.
pub(crate) trait Question {
    ghost use Rattle.facts.specs.Stores.{Decides};
    ghost use Rattle.rules.specs.Inquiries.{facts_of, Looks};

    // What a yes says of the number.
    ghost says: { Self → Facts → ℕ → Type 0 };

    fn ask<S: Store>(&self, inquiry: &mut Inquiry<S>, n: u8) -> bool
        ensures value { S.sound inquiry.old.store.now → Decides result (says self.now (facts_of inquiry.old) n) }
        ensures looks { Looks inquiry.old inquiry.new };
}

// What can be tried of each number in turn by look-ups and walks.
pub(crate) trait Trial {
    ghost use Rattle.facts.specs.Stores.{Decides};
    ghost use Rattle.rules.specs.Inquiries.{facts_of, Walks};

    // What a yes shows of the number.
    ghost shows: { Self → Facts → ℕ → Type 0 };

    fn run<S: Store>(&self, inquiry: &mut Inquiry<S>, n: u8) -> bool
        ensures value { S.sound inquiry.old.store.now → Decides result (shows self.now (facts_of inquiry.old) n) }
        ensures walks { Walks inquiry.old inquiry.new };
}

impl<'s, 'm, S: Store> Inquiry<'s, 'm, S> {
    ghost use Rattle.std.specs.Prelude.{◌<◌};
    ghost use Rattle.facts.specs.declared.fact.Kind.TheVariants.{UserConflict};
    ghost use Rattle.facts.specs.Stores.{Decides};
    ghost use Rattle.rules.specs.Asking.{Exactly};
    ghost use Rattle.rules.specs.Inquiries.{facts_of, Looks, Walks};
    ghost use Rattle.rules.specs.Roles.{pair, Party};

    // Whether a fact is in the set after the change. The store is asked in one place, and the functions around a walk have a hint to
    // be inlined: without both, a look-up costs twice as much.
    #[inline(always)]
    #[tactic(auto, unfolding(facts::specs::Facts::same_fact))]
    pub(crate) fn has(&mut self, fact: Fact) -> bool
        ensures value { S.sound self.old.store.now → result ≡ facts_of self.old fact }
        ensures looks { Looks self.old self.new }
    {
        let change = self.change;
        match change {
            Change::Add(added) if added == fact => true,
            Change::Remove(removed) if removed == fact => false,
            _ => self.store.has(fact),
        }
    }

    // Whether two things conflict, or are at odds, after the change.
    pub(crate) fn pairs(&mut self, kind: Kind, x: u8, y: u8) -> bool
        ensures value { S.sound self.old.store.now → result ≡ facts_of self.old (pair kind x y) }
        ensures looks { Looks self.old self.new }
    {
        self.has(Fact::new(kind, x.min(y), x.max(y), 0))
    }

    // Whether two users are one party after the change.
    pub(crate) fn party(&mut self, u: u8, v: u8) -> bool
        ensures value { S.sound self.old.store.now → Decides result (Party (facts_of self.old) u v) }
        ensures looks { Looks self.old self.new }
    {
        u == v || self.pairs(Kind::UserConflict, u, v)
    }

    // Whether some number below the end passes.
    pub(crate) fn any<T: Trial>(&mut self, trial: &T, end: u8) -> bool
        ensures value { S.sound self.old.store.now → Decides result ((n : ℕ) × (n < end) × T.shows trial.now (facts_of self.old) n) }
        ensures walks { Walks self.old self.new }
    {
        // A chain was tried, and its proof does not close: what a closure does to the inquiry that it captures is lost.
        for n in 0..end {
            if trial.run(self, n) {
                return true;
            }
        }
        false
    }

    // The roles that answer yes.
    #[inline(always)]
    pub(crate) fn collect<Q: Question>(&mut self, question: &Q) -> RoleSet
        ensures value { S.sound self.old.store.now → Exactly result (Q.says question.now (facts_of self.old)) }
        ensures looks { Looks self.old self.new }
    {
        let mut members = [false; 64];
        for (role, member) in members.iter_mut().enumerate() {
            *member = question.ask(self, role as u8);
        }
        RoleSet { members }
    }
}
