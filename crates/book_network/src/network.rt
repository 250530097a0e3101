// The role network of a release: who holds which roles and has which permissions, and which rule a change would break. What prints
// is handed the runtime beside the store: a struct of the two would promise nothing of either.
ghost use Rattle.std.specs.Prelude.{◌≡◌};
ghost use Rattle.facts.specs.Facts.{number, fact};
ghost use Rattle.rules.specs.Asking.{Asks};

use facts::fact::{Fact, Kind};
use facts::store::Store;
use rules::change::Change;
use rules::judge::judge;
use rules::roles::{has_permission, roles_held};
use rules::rule::Rule;
use std::{fmt, io};
use words::InWords;

// Role 2 tunes and is above role 1, which reads; role 3 approves. Roles 2 and 3 conflict, and so do the permissions to tune and
// to approve. User 20 tunes, and users 20 and 21 conflict.
const NETWORK: [(Kind, u8, u8); 13] = [
    (Kind::Senior, 2, 1),
    (Kind::PermissionRole, 10, 1),
    (Kind::PermissionRole, 11, 2),
    (Kind::PermissionRole, 12, 3),
    (Kind::TaskRole, 5, 2),
    (Kind::TaskRole, 6, 3),
    (Kind::TaskRole, 7, 1),
    (Kind::RoleConflict, 2, 3),
    (Kind::PermissionConflict, 11, 12),
    (Kind::Senior, 4, 2),
    (Kind::UserRole, 20, 2),
    (Kind::UserConflict, 20, 21),
    (Kind::UserRole, 21, 1),
];

fn pair(kind: Kind, a: u8, b: u8) -> Fact
    ensures { result ≡ fact (number kind) a b 0 }
{
    Fact::new(kind, a, b, 0)
}

// What could be done to the network, for good or ill.
fn changes() -> [Change; 8] {
    [
        Change::Add(pair(Kind::Senior, 1, 4)),
        Change::Add(pair(Kind::Senior, 4, 3)),
        Change::Add(pair(Kind::UserRole, 20, 3)),
        Change::Add(pair(Kind::UserRole, 21, 3)),
        Change::Add(pair(Kind::UserRole, 22, 3)),
        Change::Remove(pair(Kind::RoleConflict, 2, 3)),
        Change::Add(pair(Kind::TaskConflict, 5, 7)),
        Change::Add(pair(Kind::UserRole, 128, 1)),
    ]
}

// A change as the start of a sentence.
#[derive(Clone, Copy)]
struct Doing(Change);

impl fmt::Display for Doing {
    fn fmt<W: fmt::Write>(&self, f: &mut fmt::Formatter<W>) -> fmt::Result {
        match self.0 {
            Change::Nothing => write!(f, "changing nothing"),
            Change::Add(fact) => write!(f, "adding: {}", InWords(fact)),
            Change::Remove(fact) => write!(f, "removing: {}", InWords(fact)),
        }
    }
}

// A rule as a sentence.
#[derive(Clone, Copy)]
struct Says(Rule);

impl fmt::Display for Says {
    fn fmt<W: fmt::Write>(&self, f: &mut fmt::Formatter<W>) -> fmt::Result {
        match self.0 {
            Rule::NoCycle => write!(f, "no role lies above itself"),
            Rule::RolesApart => write!(f, "no role reaches both of two conflicting roles"),
            Rule::PartiesApart => write!(f, "one party does not hold two conflicting roles"),
            Rule::PermissionsApart => write!(f, "conflicting permissions lie in conflicting roles"),
            Rule::TasksApart => write!(f, "conflicting tasks lie in conflicting roles"),
            Rule::TakersApart => write!(
                f,
                "one party does not take two tasks at odds in an open case"
            ),
        }
    }
}

fn load<S: Store>(store: &mut S)
    ensures kept { S.sound store.old → S.sound store.new }
    ensures outside { S.outside store.old store.new }
{
    for (kind, a, b) in NETWORK {
        let _ = store.put(pair(kind, a, b));
    }
}

fn show_roles<S: Store>(rt: &impl Print, store: &mut S, user: u32) -> io::Result<()>
    ensures { Asks S.Store store.old store.new }
{
    let Ok(roles) = roles_held(store, user, &mut [0; 64]) else {
        return println!(rt; "  no user {user}");
    };
    for role in (0..64u32).filter(|role| roles.contains(*role)) {
        println!(rt; "  user {user} holds role {role}")?;
    }
    Ok(())
}

#[tactic(auto, using(rules::proofs::Frame::asks_on))]
fn show_permissions<S: Store>(rt: &impl Print, store: &mut S, user: u32) -> io::Result<()>
    ensures { Asks S.Store store.old store.new }
{
    for permission in 0..64u32 {
        if let Ok(true) = has_permission(store, user, permission, &mut [0; 64]) {
            println!(rt; "  user {user} has permission {permission}")?;
        }
    }
    Ok(())
}

fn show_verdict<S: Store>(rt: &impl Print, store: &mut S, change: Change) -> io::Result<()>
    ensures { Asks S.Store store.old store.new }
{
    match judge(store, change, &mut [0; 64]) {
        Ok(None) => println!(rt; "breaks no rule"),
        Ok(Some(rule)) => println!(rt; "breaks rule {}, {}", u8::from(rule), Says(rule)),
        Err(refusal) => println!(rt; "refused, {}", u8::from(refusal)),
    }
}

fn show_change<S: Store>(rt: &impl Print, store: &mut S, change: Change) -> io::Result<()>
    ensures { Asks S.Store store.old store.new }
{
    print!(rt; "  {}: ", Doing(change))?;
    show_verdict(rt, store, change)
}

#[tactic(auto, using(rules::proofs::Frame::asks_on))]
fn show_users<S: Store>(rt: &impl Print, store: &mut S) -> io::Result<()>
    ensures { Asks S.Store store.old store.new }
{
    for user in 20..23u32 {
        show_roles(rt, store, user)?;
        show_permissions(rt, store, user)?;
    }
    Ok(())
}

fn show_changes<S: Store>(rt: &impl Print, store: &mut S) -> io::Result<()>
    ensures { Asks S.Store store.old store.new }
{
    for change in changes() {
        show_change(rt, store, change)?;
    }
    Ok(())
}

// Loads the network into a store, and tells of some users and of some changes.
pub(crate) fn show_network<S: Store>(rt: &impl Print, store: &mut S) -> io::Result<()>
    ensures kept { S.sound store.old → S.sound store.new }
    ensures outside { S.outside store.old store.new }
{
    load(store);
    show_users(rt, store)?;
    show_changes(rt, store)
}
