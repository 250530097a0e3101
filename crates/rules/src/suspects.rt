// Where a rule can be broken by a change, if it held before: only there it has to be looked at.
ghost use Rattle.std.specs.Prelude.{◌≡◌, MatchOption};
ghost use Rattle.facts.specs.Facts.{number};
ghost use Rattle.rules.specs.Judging.{GainsNone, LosesNone, Enough, EnoughItems};
ghost use Rattle.rules.specs.declared.change.Change.TheVariants.{Add, Remove};
ghost use Rattle.rules.specs.declared.rule.Rule.TheVariants.{NoCycle, RolesApart, PartiesApart, TakersApart};

use crate::change::Change;
use crate::item_kinds::ItemKinds;
use crate::rule::Rule;
use facts::fact::{Fact, Kind};

// The role that some of them are found by is a number, or, once a walk has gone up from it, the roles that reach it.
#[derive(Clone, Copy)]
pub(crate) enum Suspects<R> {
    All,
    Nobody,
    One(u8),
    // The roles that reach the role.
    Reachers(R),
    // The users who hold the role.
    Holders(R),
    // What is assigned to the role, by the kind.
    Items(Kind, u8),
    // The tasks that the user has taken in an open case.
    TakenBy(u8),
}

// An accessor for each variant, as `ok` and `err` of a `Result`: one for both would take a flag, and promise two things by it.
impl Change {
    // The fact that is added, if it is of the kind.
    #[tactic(auto, using(crate::proofs::Gains::gains_other))]
    fn added(self, kind: Kind) -> Option<Fact>
        ensures { MatchOption result (GainsNone kind self) (λ f. (self ≡ Add f) × (f.kind ≡ number kind)) }
    {
        match self {
            Change::Add(fact) if fact.kind == kind.into() => Some(fact),
            _ => None,
        }
    }

    // The fact that is removed, if it is of the kind.
    #[tactic(auto, using(crate::proofs::Gains::loses_other))]
    fn removed(self, kind: Kind) -> Option<Fact>
        ensures { MatchOption result (LosesNone kind self) (λ f. (self ≡ Remove f) × (f.kind ≡ number kind)) }
    {
        match self {
            Change::Remove(fact) if fact.kind == kind.into() => Some(fact),
            _ => None,
        }
    }
}

fn cycle_suspects(change: Change) -> Suspects<u8>
    ensures { Enough NoCycle change result }
{
    if let Some(link) = change.added(Kind::Senior) {
        return Suspects::One(link.a);
    }
    Suspects::Nobody
}

fn role_suspects(change: Change) -> Suspects<u8>
    ensures { Enough RolesApart change result }
{
    if let Some(link) = change.added(Kind::Senior) {
        return Suspects::Reachers(link.a);
    }
    if let Some(conflict) = change.added(Kind::RoleConflict) {
        return Suspects::Reachers(conflict.a);
    }
    Suspects::Nobody
}

fn party_suspects(change: Change) -> Suspects<u8>
    ensures { Enough PartiesApart change result }
{
    if let Some(assigned) = change.added(Kind::UserRole) {
        return Suspects::One(assigned.a);
    }
    if let Some(conflict) = change.added(Kind::UserConflict) {
        return Suspects::One(conflict.a);
    }
    if let Some(link) = change.added(Kind::Senior) {
        return Suspects::Holders(link.a);
    }
    if let Some(conflict) = change.added(Kind::RoleConflict) {
        return Suspects::Holders(conflict.a);
    }
    Suspects::Nobody
}

fn item_suspects(change: Change, kinds: ItemKinds) -> Suspects<u8>
    ensures { EnoughItems kinds.assigned kinds.conflict change result }
{
    if let Some(added) = change.added(kinds.assigned) {
        return Suspects::One(added.a);
    }
    if let Some(added) = change.added(kinds.conflict) {
        return Suspects::One(added.a);
    }
    if let Some(gone) = change.removed(Kind::RoleConflict) {
        return Suspects::Items(kinds.assigned, gone.a);
    }
    Suspects::Nobody
}

fn taker_suspects(change: Change) -> Suspects<u8>
    ensures { Enough TakersApart change result }
{
    if let Some(odds) = change.added(Kind::AtOdds) {
        return Suspects::One(odds.a);
    }
    if let Some(taken) = change.added(Kind::Taken) {
        return Suspects::One(taken.b);
    }
    if let Some(conflict) = change.added(Kind::UserConflict) {
        return Suspects::TakenBy(conflict.a);
    }
    if change.added(Kind::OpenCase).is_some() {
        return Suspects::All;
    }
    Suspects::Nobody
}

impl Rule {
    // Where the change can break the rule, if it held before. By cases, as what breaks a rule is defined (`Breaks`, by which `Enough`
    // is said): a closure for each rule would have to be given that meaning at each call.
    pub(crate) fn suspects(self, change: Change) -> Suspects<u8>
        ensures { Enough self change result }
    {
        match self {
            Rule::NoCycle => cycle_suspects(change),
            Rule::RolesApart => role_suspects(change),
            Rule::PartiesApart => party_suspects(change),
            Rule::PermissionsApart => item_suspects(change, ItemKinds::PERMISSIONS),
            Rule::TasksApart => item_suspects(change, ItemKinds::TASKS),
            Rule::TakersApart => taker_suspects(change),
        }
    }
}
