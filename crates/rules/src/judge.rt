// Which rule, the first in order, the facts would break after one change: by looking at all of them, or, where the rules held
// before, only where the change can break one.
ghost use Rattle.std.specs.Prelude.{◌≡◌, ℕ, ◌<◌, length};
ghost use Rattle.facts.specs.declared.fact.Kind.TheVariants.{UserRole};
ghost use Rattle.facts.specs.Stores.{Decides};
ghost use Rattle.rules.specs.Asking.{Asks, Among};
ghost use Rattle.rules.specs.Calls.{Answered, Sheet};
ghost use Rattle.rules.specs.Inquiries.{facts_of, Walks};
ghost use Rattle.rules.specs.Judging.{Breaks, subjects, Suspected, InScope, Scoped, Held, Finding};
ghost use Rattle.rules.specs.Roles.{Assigned};
ghost use Rattle.rules.specs.Changes.{after, Proper};
ghost use Rattle.rules.specs.Rules.{Keeps, First};
ghost use Rattle.rules.specs.declared.rule.Rule.{Rule};
ghost use Rattle.rules.specs.declared.rule.Rule.TheVariants.{RolesApart};
ghost use Rattle.rules.specs.Tasks.{Open, HasTaken};

use crate::change::Change;
use crate::inquiry::{Inquiry, Trial};
use crate::item_kinds::ItemKinds;
use crate::refusal::Refusal;
use crate::relations::Is;
use crate::role_set::RoleSet;
use crate::rule::Rule;
use crate::suspects::Suspects;
use crate::walk::Way;
use facts::fact::{Fact, Kind};
use facts::store::Store;

const ORDER: [Rule; 6] = [
    Rule::NoCycle,
    Rule::RolesApart,
    Rule::PartiesApart,
    Rule::PermissionsApart,
    Rule::TasksApart,
    Rule::TakersApart,
];

// The roles of a set that a user is assigned to.
#[derive(Clone, Copy)]
struct Within {
    user: u8,
    roles: RoleSet,
}

impl Trial for Within {
    ghost shows = { λ q m s. Among q.roles s × Assigned UserRole m q.user s };

    fn run<S: Store>(&self, inquiry: &mut Inquiry<S>, n: u8) -> bool {
        self.roles.contains(n as u32) && inquiry.has(Fact::new(Kind::UserRole, self.user, n, 0))
    }
}

// The open cases in which a user has taken a task.
#[derive(Clone, Copy)]
struct TakenIn {
    task: u8,
    user: u8,
}

impl Trial for TakenIn {
    ghost shows = { λ q m c. Open m c × HasTaken m c q.task q.user };

    fn run<S: Store>(&self, inquiry: &mut Inquiry<S>, n: u8) -> bool {
        inquiry.is_open(n) && inquiry.has_taken(n, self.task, self.user)
    }
}

// By cases, as whom a suspicion means is defined.
impl Trial for Suspects<RoleSet> {
    ghost shows = { InScope };

    fn run<S: Store>(&self, inquiry: &mut Inquiry<S>, n: u8) -> bool {
        match *self {
            Suspects::All => true,
            Suspects::Nobody => false,
            Suspects::One(only) => n == only,
            Suspects::Reachers(roles) => roles.contains(n as u32),
            Suspects::Holders(roles) => inquiry.any(&Within { user: n, roles }, 64),
            Suspects::Items(kind, role) => inquiry.has(Fact::new(kind, n, role, 0)),
            Suspects::TakenBy(user) => inquiry.any(&TakenIn { task: n, user }, 32),
        }
    }
}

// The suspects at whom a rule is broken.
#[derive(Clone, Copy)]
struct Fault {
    rule: Rule,
    suspects: Suspects<RoleSet>,
}

impl Trial for Fault {
    ghost shows = { λ q m x. InScope q.suspects m x × Breaks q.rule m x };

    fn run<S: Store>(&self, inquiry: &mut Inquiry<S>, n: u8) -> bool {
        self.suspects.run(inquiry, n) && inquiry.breaks(self.rule, n)
    }
}

impl Rule {
    // How many roles, users, permissions or tasks the rule is about.
    fn subjects(self) -> u8
        ensures { result ≡ subjects self }
    {
        match self {
            Rule::NoCycle => 64,
            Rule::RolesApart => 64,
            Rule::PartiesApart => 128,
            Rule::PermissionsApart => 64,
            Rule::TasksApart => 32,
            Rule::TakersApart => 32,
        }
    }
}

impl<'s, 'm, S: Store> Inquiry<'s, 'm, S> {
    // The same suspects, by the roles that reach the role that they are found by.
    #[tactic(auto, using(crate::proofs::Scopes::reachers_scoped, crate::proofs::Scopes::holders_scoped, crate::proofs::Scopes::taken_scoped))]
    fn find(&mut self, suspects: Suspects<u8>) -> Suspects<RoleSet>
        ensures value { S.sound self.old.store.now → Scoped suspects result (facts_of self.old) }
        ensures walks { Walks self.old self.new }
    {
        match suspects {
            Suspects::All => Suspects::All,
            Suspects::Nobody => Suspects::Nobody,
            Suspects::One(only) => Suspects::One(only),
            Suspects::Reachers(role) => Suspects::Reachers(self.roles_from(&Is(role), Way::Up)),
            Suspects::Holders(role) => Suspects::Holders(self.roles_from(&Is(role), Way::Up)),
            Suspects::Items(kind, role) => Suspects::Items(kind, role),
            Suspects::TakenBy(user) => Suspects::TakenBy(user),
        }
    }

    // Whether the rule is broken at a role, a user, a permission or a task. By cases, as what breaks a rule is defined.
    fn breaks(&mut self, rule: Rule, x: u8) -> bool
        ensures value { S.sound self.old.store.now → Decides result (Breaks rule (facts_of self.old) x) }
        ensures walks { Walks self.old self.new }
    {
        match rule {
            Rule::NoCycle => self.is_above(x, x),
            Rule::RolesApart => self.reaches_conflict(x),
            Rule::PartiesApart => self.party_holds_conflict(x),
            Rule::PermissionsApart => self.mixed(ItemKinds::PERMISSIONS, x),
            Rule::TasksApart => self.mixed(ItemKinds::TASKS, x),
            Rule::TakersApart => self.party_took_both(x),
        }
    }

    fn reaches_conflict(&mut self, role: u8) -> bool
        ensures value { S.sound self.old.store.now → Decides result (Breaks RolesApart (facts_of self.old) role) }
        ensures walks { Walks self.old self.new }
    {
        let reached = self.roles_from(&Is(role), Way::Down);
        self.meet(reached, reached, true)
    }

    // Whether the rule is broken at a suspect.
    #[tactic(auto, using(crate::proofs::Broken::breaking, crate::proofs::Frame::only_of))]
    fn broken_at(&mut self, rule: Rule, suspects: Suspects<u8>) -> bool
        ensures value { S.sound self.old.store.now → Decides result ((x : ℕ) × Suspected suspects (facts_of self.old) x × Breaks rule (facts_of self.old) x) }
        ensures walks { Walks self.old self.new }
    {
        let suspects = self.find(suspects);
        self.any(&Fault { rule, suspects }, rule.subjects())
    }

    // Whether the facts keep the rule after the change.
    #[tactic(auto, using(crate::proofs::Broken::decides_kept, crate::proofs::Frame::only_of))]
    fn keeps(&mut self, judgement: Judgement, rule: Rule) -> bool
        ensures value { S.sound self.old.store.now → Held judgement rule (S.facts self.old.store.now) → Decides result (Keeps rule (facts_of self.old)) }
        ensures walks { Walks self.old self.new }
    {
        let suspects = judgement.suspects(rule, self.change);
        !self.broken_at(rule, suspects)
    }

    // The first rule that the facts break after the change.
    #[tactic(auto, using(crate::proofs::Frame::walks_on))]
    fn first_broken(&mut self, judgement: Judgement) -> Option<Rule>
        ensures value { S.sound self.old.store.now → ((q : Rule) → Held judgement q (S.facts self.old.store.now)) → First (facts_of self.old) result }
        ensures walks { Walks self.old self.new }
    {
        // No chain, for the reason given at `any`.
        for rule in ORDER {
            if !self.keeps(judgement, rule) {
                return Some(rule);
            }
        }
        None
    }
}

// A full judgement looks everywhere; a quick one only where the change can break a rule that held before. An enum and no closure:
// clauses say by its cases what a judgement rests on.
#[derive(Clone, Copy)]
enum Judgement {
    Full,
    Quick,
}

impl Judgement {
    fn suspects(self, rule: Rule, change: Change) -> Suspects<u8>
        ensures { Finding self rule change result }
    {
        match self {
            Judgement::Full => Suspects::All,
            Judgement::Quick => rule.suspects(change),
        }
    }
}

// Makes its inquiry in the lines that stand in `roles` too, and takes the store and the sheet as two, for the reasons given there.
#[tactic(auto, using(crate::proofs::Gains::only_after))]
fn judge_by<S: Store>(
    judgement: Judgement,
    store: &mut S,
    change: Change,
    sheet: &mut [u8],
) -> Result<Option<Rule>, Refusal>
    ensures answer { Answered (Proper change) (length sheet.old) result
        (λ o. S.sound store.old → ((q : Rule) → Held judgement q (S.facts store.old)) → First (after (S.facts store.old) change) o) }
    ensures sheet { Sheet result sheet.old sheet.new }
    ensures asks { Asks S.Store store.old store.new }
{
    change.admit()?;
    let marks = sheet.first_chunk_mut().ok_or(Refusal::ShortSheet)?;
    let mut inquiry = Inquiry {
        store,
        change,
        marks,
    };
    Ok(inquiry.first_broken(judgement))
}

// Which rule, the first in order, the facts would break after the change.
pub fn judge<S: Store>(
    store: &mut S,
    change: Change,
    sheet: &mut [u8],
) -> Result<Option<Rule>, Refusal>
    ensures answer { Answered (Proper change) (length sheet.old) result
        (λ o. S.sound store.old → First (after (S.facts store.old) change) o) }
    ensures sheet { Sheet result sheet.old sheet.new }
    ensures asks { Asks S.Store store.old store.new }
{
    judge_by(Judgement::Full, store, change, sheet)
}

// The same, where the rules held before: looks only where the change can break one.
pub fn judge_quickly<S: Store>(
    store: &mut S,
    change: Change,
    sheet: &mut [u8],
) -> Result<Option<Rule>, Refusal>
    ensures answer { Answered (Proper change) (length sheet.old) result
        (λ o. S.sound store.old → ((q : Rule) → Keeps q (S.facts store.old)) → First (after (S.facts store.old) change) o) }
    ensures sheet { Sheet result sheet.old sheet.new }
    ensures asks { Asks S.Store store.old store.new }
{
    judge_by(Judgement::Quick, store, change, sheet)
}
