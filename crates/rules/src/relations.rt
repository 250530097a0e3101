// Who lies above, holds and has what, after the change.
ghost use Rattle.std.specs.Prelude.{◌≡◌};
ghost use Rattle.facts.specs.Stores.{Decides};
ghost use Rattle.rules.specs.Asking.{Exactly};
ghost use Rattle.rules.specs.Inquiries.{facts_of, Walks};
ghost use Rattle.rules.specs.Roles.{Assigned, Above, Holds, Has};

use crate::inquiry::{Inquiry, Question};
use crate::role_set::RoleSet;
use crate::walk::{Next, Way};
use facts::fact::{Fact, Kind};
use facts::store::Store;

// The one role.
#[derive(Clone, Copy)]
pub(crate) struct Is(pub(crate) u8);

impl Question for Is {
    ghost says = { λ q _ s. s ≡ q.0 };

    fn ask<S: Store>(&self, _inquiry: &mut Inquiry<S>, n: u8) -> bool {
        n == self.0
    }
}

// The roles that a user, a permission or a task is assigned to, by the kind.
#[derive(Clone, Copy)]
pub(crate) struct RolesOf(pub(crate) Kind, pub(crate) u8);

impl Question for RolesOf {
    ghost says = { λ q m s. Assigned q.0 m q.1 s };

    fn ask<S: Store>(&self, inquiry: &mut Inquiry<S>, n: u8) -> bool {
        inquiry.has(Fact::new(self.0, self.1, n, 0))
    }
}

impl<'s, 'm, S: Store> Inquiry<'s, 'm, S> {
    // Whether one role lies above another.
    #[inline(always)]
    #[tactic(auto, using(crate::proofs::Reach::decides_above))]
    pub(crate) fn is_above(&mut self, senior: u8, junior: u8) -> bool
        ensures value { S.sound self.old.store.now → Decides result (Above (facts_of self.old) senior junior) }
        ensures walks { Walks self.old self.new }
    {
        let juniors = Next {
            way: Way::Down,
            role: senior,
        };
        self.leads(&juniors, &Is(junior))
    }

    // Whether a user holds a role.
    #[inline(always)]
    #[tactic(auto, using(crate::proofs::Reach::decides_holding))]
    pub(crate) fn user_holds(&mut self, user: u8, role: u8) -> bool
        ensures value { S.sound self.old.store.now → Decides result (Holds (facts_of self.old) user role) }
        ensures walks { Walks self.old self.new }
    {
        self.leads(&RolesOf(Kind::UserRole, user), &Is(role))
    }

    // Whether a user has a permission.
    #[inline(always)]
    #[tactic(auto, using(crate::proofs::Reach::decides_having))]
    pub(crate) fn user_has(&mut self, user: u8, permission: u8) -> bool
        ensures value { S.sound self.old.store.now → Decides result (Has (facts_of self.old) user permission) }
        ensures walks { Walks self.old self.new }
    {
        self.leads(
            &RolesOf(Kind::UserRole, user),
            &RolesOf(Kind::PermissionRole, permission),
        )
    }

    // The roles that a user holds.
    #[inline(always)]
    #[tactic(auto, using(crate::proofs::Reach::exactly_held))]
    pub(crate) fn held_by(&mut self, user: u8) -> RoleSet
        ensures value { S.sound self.old.store.now → Exactly result (Holds (facts_of self.old) user) }
        ensures walks { Walks self.old self.new }
    {
        self.roles_from(&RolesOf(Kind::UserRole, user), Way::Down)
    }
}
