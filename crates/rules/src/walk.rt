// The walk through the role network. While it runs each mark is 0 for a role not met, 1 for one that is done, 2 for one still to
// be gone on from. Each role is gone on from at most once, by 64 look-ups.
ghost use Rattle.std.specs.Prelude.{◌≡◌, ℕ, ◌<◌, false, length, MatchOption, slice_index_or};
ghost use Rattle.facts.specs.Stores.{Decides};
ghost use Rattle.rules.specs.Asking.{Among, Exactly};
ghost use Rattle.rules.specs.Inquiries.{facts_of, Walks};
ghost use Rattle.rules.specs.Roles.{Link};
ghost use Rattle.rules.specs.Walks.{Linked, From, Leads, mark, Pended, Ended, Walked, Swept};

use crate::inquiry::{Inquiry, Question};
use crate::role_set::RoleSet;
use facts::fact::{Fact, Kind};
use facts::store::Store;

// Along a link to the junior role, or to the senior one. An enum, since what a walk finds is said by its cases (`Linked`).
#[derive(Clone, Copy)]
pub(crate) enum Way {
    Down,
    Up,
}

// No role is met. The clauses on the length here and below say what the type does, for the proof of a walk, which does not see it.
fn clear(marks: &mut [u8; 64])
    ensures zeros { (s : ℕ) → s < 64 → mark marks.new s ≡ 0 }
    ensures long { length marks.new ≡ length marks.old }
{
    marks.fill(0);
}

// Has the walk go on from each role of the set that it has not met.
fn pend(roles: &RoleSet, marks: &mut [u8; 64])
    ensures pended { Pended (λ s. slice_index_or roles.now.members s false) marks.old marks.new }
    ensures long { length marks.new ≡ length marks.old }
{
    for (role, mark) in marks.iter_mut().enumerate() {
        if *mark == 0 && roles.contains(role as u32) {
            *mark = 2;
        }
    }
}

// A role to go on from.
fn pending(marks: &[u8; 64]) -> Option<u8>
    ensures role { MatchOption result (Ended marks.now) (λ s. (s < 64) × (mark marks.now s ≡ 2)) }
    ensures all { length marks.now ≡ 64 }
{
    let role = marks.iter().position(|mark| *mark == 2)?;
    Some(role as u8)
}

// The roles that are done. A `map` of the marks was tried, and is several times slower.
fn done(marks: &[u8; 64]) -> RoleSet
    ensures { Exactly result (λ s. mark marks.now s ≡ 1) }
{
    let mut members = [false; 64];
    for (role, member) in members.iter_mut().enumerate() {
        *member = marks[role] == 1;
    }
    RoleSet { members }
}

// The roles that are one link further.
#[derive(Clone, Copy)]
pub(crate) struct Next {
    pub(crate) way: Way,
    pub(crate) role: u8,
}

impl Question for Next {
    ghost says = { λ q m s. Linked q.way m q.role s };

    fn ask<S: Store>(&self, inquiry: &mut Inquiry<S>, n: u8) -> bool {
        inquiry.has(match self.way {
            Way::Down => Fact::new(Kind::Senior, self.role, n, 0),
            Way::Up => Fact::new(Kind::Senior, n, self.role, 0),
        })
    }
}

// No role is the goal.
#[derive(Clone, Copy)]
struct Never;

impl Question for Never {
    ghost says = { λ _ _ _. ⊥ };

    fn ask<S: Store>(&self, _inquiry: &mut Inquiry<S>, _n: u8) -> bool {
        false
    }
}

impl<'s, 'm, S: Store> Inquiry<'s, 'm, S> {
    // Walks from the roles of a set, and tells whether it comes to one that is the goal. It asks this of each role before it goes
    // on from it, and ends there. A walk that came to none has marked exactly the roles that it came to.
    fn walk<G: Question>(&mut self, first: &RoleSet, way: Way, goal: &G) -> bool
        ensures value { S.sound self.old.store.now → Decides result
            (Leads (Linked way (facts_of self.old)) (Among first.now) (G.says goal.now (facts_of self.old))) }
        ensures marks { S.sound self.old.store.now → result ≡ false → Walked (Linked way (facts_of self.old)) (Among first.now) self.new.marks.now }
        ensures swept { Swept self.new.marks.now }
        ensures walks { Walks self.old self.new }
    {
        let marks = &mut *self.marks;
        clear(marks);
        pend(first, marks);
        while let Some(role) = pending(self.marks) {
            self.marks[role as usize] = 1;
            if goal.ask(self, role) {
                let marks = &mut *self.marks;
                clear(marks);
                return true;
            }
            let next = self.collect(&Next { way, role });
            let marks = &mut *self.marks;
            pend(&next, marks);
        }
        false
    }

    // Whether a walk from the roles of the start leads to a role that is the goal.
    #[inline(always)]
    pub(crate) fn leads<A: Question, G: Question>(&mut self, start: &A, goal: &G) -> bool
        ensures value { S.sound self.old.store.now → Decides result
            (Leads (Link (facts_of self.old)) (A.says start.now (facts_of self.old)) (G.says goal.now (facts_of self.old))) }
        ensures swept { Swept self.new.marks.now }
        ensures walks { Walks self.old self.new }
    {
        let first = self.collect(start);
        self.walk(&first, Way::Down, goal)
    }

    // The roles that a walk from the roles of the start leads to.
    #[inline(always)]
    pub(crate) fn roles_from<A: Question>(&mut self, start: &A, way: Way) -> RoleSet
        ensures value { S.sound self.old.store.now → Exactly result (From (Linked way (facts_of self.old)) (A.says start.now (facts_of self.old))) }
        ensures swept { Swept self.new.marks.now }
        ensures walks { Walks self.old self.new }
    {
        let first = self.collect(start);
        self.walk(&first, way, &Never);
        done(self.marks)
    }
}
