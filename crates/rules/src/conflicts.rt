// Whether roles conflict that should not, or do not that should: of two sets of roles, of one party, of two items.
ghost use Rattle.std.specs.Prelude.{◌≡◌, ℕ, ◌<◌, true, false};
ghost use Rattle.facts.specs.declared.fact.Kind.TheVariants.{UserConflict, RoleConflict};
ghost use Rattle.facts.specs.Stores.{Decides};
ghost use Rattle.rules.specs.Asking.{Among};
ghost use Rattle.rules.specs.Inquiries.{facts_of, Walks};
ghost use Rattle.rules.specs.Judging.{Meet, Mixed, Breaks};
ghost use Rattle.rules.specs.Roles.{pair, Assigned, Holds, Conflict};
ghost use Rattle.rules.specs.declared.rule.Rule.TheVariants.{PartiesApart};

use crate::inquiry::{Inquiry, Trial};
use crate::item_kinds::ItemKinds;
use crate::relations::RolesOf;
use crate::role_set::RoleSet;
use facts::fact::Kind;
use facts::store::Store;

// The roles of a set whose conflict with the role is as asked.
#[derive(Clone, Copy)]
struct Against {
    role: u8,
    others: RoleSet,
    conflicting: bool,
}

impl Trial for Against {
    ghost shows = { λ q m s. Among q.others s × (m (pair RoleConflict q.role s) ≡ q.conflicting) };

    fn run<S: Store>(&self, inquiry: &mut Inquiry<S>, n: u8) -> bool {
        self.others.contains(n as u32)
            && inquiry.pairs(Kind::RoleConflict, self.role, n) == self.conflicting
    }
}

// The roles of one set that meet such a role of the other.
#[derive(Clone, Copy)]
struct Between {
    one: RoleSet,
    two: RoleSet,
    conflicting: bool,
}

impl Trial for Between {
    ghost shows = { λ q m r. Among q.one r
        × ((s : ℕ) × (s < 64) × (Among q.two s × (m (pair RoleConflict r s) ≡ q.conflicting))) };

    fn run<S: Store>(&self, inquiry: &mut Inquiry<S>, n: u8) -> bool {
        let against = Against {
            role: n,
            others: self.two,
            conflicting: self.conflicting,
        };
        self.one.contains(n as u32) && inquiry.any(&against, 64)
    }
}

// The items that conflict with an item, and one of whose roles does not conflict with one of that item's.
#[derive(Clone, Copy)]
struct Opposed {
    kinds: ItemKinds,
    item: u8,
    roles: RoleSet,
}

impl Trial for Opposed {
    ghost shows = { λ q m y. Conflict q.kinds.conflict m q.item y
        × Meet (Among q.roles) (Assigned q.kinds.assigned m y) false m };

    #[tactic(auto, using(crate::proofs::Frame::looks_on, crate::proofs::Frame::walks_after))]
    fn run<S: Store>(&self, inquiry: &mut Inquiry<S>, n: u8) -> bool {
        if !inquiry.pairs(self.kinds.conflict, self.item, n) {
            return false;
        }
        let others = inquiry.collect(&RolesOf(self.kinds.assigned, n));
        inquiry.meet(self.roles, others, false)
    }
}

// The users who conflict with a user and hold a role that conflicts with one of the set.
#[derive(Clone, Copy)]
struct Rivals {
    user: u8,
    held: RoleSet,
}

impl Trial for Rivals {
    ghost shows = { λ q m v. Conflict UserConflict m q.user v × Meet (Among q.held) (Holds m v) true m };

    #[tactic(auto, using(crate::proofs::Frame::walks_on, crate::proofs::Frame::walks_after))]
    fn run<S: Store>(&self, inquiry: &mut Inquiry<S>, n: u8) -> bool {
        if !inquiry.pairs(Kind::UserConflict, self.user, n) {
            return false;
        }
        let others = inquiry.held_by(n);
        inquiry.meet(self.held, others, true)
    }
}

impl<'s, 'm, S: Store> Inquiry<'s, 'm, S> {
    // Whether a role of one set and a role of the other conflict, or do not, as asked.
    pub(crate) fn meet(&mut self, one: RoleSet, two: RoleSet, conflicting: bool) -> bool
        ensures value { S.sound self.old.store.now → Decides result (Meet (Among one) (Among two) conflicting (facts_of self.old)) }
        ensures walks { Walks self.old self.new }
    {
        let between = Between {
            one,
            two,
            conflicting,
        };
        self.any(&between, 64)
    }

    // Whether an item conflicts with another, and two of their roles do not conflict.
    #[tactic(auto, using(crate::proofs::Broken::decides_mixed, crate::proofs::Frame::only_of))]
    pub(crate) fn mixed(&mut self, kinds: ItemKinds, item: u8) -> bool
        ensures value { S.sound self.old.store.now → Decides result (Mixed kinds.assigned kinds.conflict (facts_of self.old) item) }
        ensures walks { Walks self.old self.new }
    {
        let opposed = Opposed {
            kinds,
            item,
            roles: self.collect(&RolesOf(kinds.assigned, item)),
        };
        self.any(&opposed, kinds.end)
    }

    // Whether a user's party holds two conflicting roles between them.
    #[tactic(auto, using(crate::proofs::Frame::walks_on))]
    pub(crate) fn party_holds_conflict(&mut self, user: u8) -> bool
        ensures value { S.sound self.old.store.now → Decides result (Breaks PartiesApart (facts_of self.old) user) }
        ensures walks { Walks self.old self.new }
    {
        let held = self.held_by(user);
        self.meet(held, held, true) || self.any(&Rivals { user, held }, 128)
    }
}
