// A small release, kept in any store, with a line for each call. What prints is handed the runtime beside the store: a struct of
// the two would promise nothing of either.
ghost use Rattle.std.specs.Prelude.{◌≡◌, IfOk};
ghost use Rattle.cache.specs.Memory.{recalled, Faithful};
ghost use Rattle.book_grid.specs.Steps.{Does};
ghost use Rattle.book_grid.specs.declared.step.Answer.{Answer};

use crate::step::Step;
use cache::Cache;
use facts::fact::{Fact, Kind};
use facts::store::Store;
use std::io;
use words::InWords;

const ASSIGNED: Fact = Fact {
    kind: Kind::UserRole as u8,
    a: 20,
    b: 2,
    c: 0,
};

const OPEN: Fact = Fact {
    kind: Kind::OpenCase as u8,
    a: 0,
    b: 0,
    c: 0,
};

const NEVER_ASKED: Fact = Fact {
    kind: Kind::UserRole as u8,
    a: 22,
    b: 1,
    c: 0,
};

// User 20 prepares the profile by role 2, and takes task 5 in case 0; later user 20 loses the role.
const RELEASE: [Step; 15] = [
    Step::Empty,
    Step::Put(Fact {
        kind: Kind::Senior as u8,
        a: 2,
        b: 1,
        c: 0,
    }),
    Step::Put(Fact {
        kind: Kind::PermissionRole as u8,
        a: 10,
        b: 1,
        c: 0,
    }),
    Step::Put(Fact {
        kind: Kind::TaskRole as u8,
        a: 5,
        b: 2,
        c: 0,
    }),
    Step::Put(ASSIGNED),
    Step::Put(Fact {
        kind: Kind::RoleConflict as u8,
        a: 2,
        b: 3,
        c: 0,
    }),
    Step::Put(Fact {
        kind: Kind::AtOdds as u8,
        a: 5,
        b: 7,
        c: 0,
    }),
    Step::Put(OPEN),
    Step::Put(Fact {
        kind: Kind::Taken as u8,
        a: 0,
        b: 5,
        c: 20,
    }),
    Step::Put(ASSIGNED),
    Step::Has(ASSIGNED),
    Step::Take(ASSIGNED),
    Step::Has(ASSIGNED),
    Step::Put(Fact {
        kind: Kind::UserRole as u8,
        a: 128,
        b: 2,
        c: 0,
    }),
    Step::Empty,
];

// Runs one step, and tells what it answers.
pub(crate) fn show<S: Store>(rt: &impl Print, store: &mut S, step: Step) -> io::Result<()>
    ensures does { S.sound store.old
        → (a : Answer) × Does step (S.facts store.old) (S.spare store.old) a
        (S.facts store.new) (S.spare store.new) }
    ensures kept { S.sound store.old → S.sound store.new }
    ensures outside { S.outside store.old store.new }
{
    let answer = step.run(store);
    println!(rt; "  {step}: {answer}")
}

// Runs the steps one after the other.
fn play<S: Store>(rt: &impl Print, store: &mut S, steps: &[Step]) -> io::Result<()>
    ensures kept { S.sound store.old → S.sound store.new }
    ensures outside { S.outside store.old store.new }
{
    for step in steps {
        show(rt, store, *step)?;
    }
    Ok(())
}

// Keeps the release in a store, and tells how far its spare fell.
pub(crate) fn keep_release<S: Store>(rt: &impl Print, store: &mut S) -> io::Result<()>
    ensures kept { S.sound store.old → S.sound store.new }
    ensures outside { S.outside store.old store.new }
{
    let before = store.spare();
    play(rt, store, &RELEASE)?;
    let fell = before.saturating_sub(store.spare());
    println!(rt; "  the spare fell by {fell}")
}

// Tells what a cache remembers of a fact.
fn recollect<S: Store>(rt: &impl Print, cache: &Cache<S>, fact: Fact) -> io::Result<Option<bool>>
    ensures { IfOk result (λ o. o ≡ recalled cache.now.slots fact) }
{
    let answer = cache.remembers(fact);
    let told = match answer {
        Some(true) => "yes",
        Some(false) => "no",
        None => "nothing",
    };
    println!(rt; "  remembered: {}: {told}", InWords(fact))?;
    Ok(answer)
}

// The same over a cache, and then what the cache remembers.
pub(crate) fn keep_remembered<S: Store>(rt: &impl Print, store: &mut Cache<S>) -> io::Result<()>
    ensures kept { Faithful S.sound S.facts store.old → Faithful S.sound S.facts store.new }
    ensures outside { S.outside store.old.below store.new.below }
{
    keep_release(rt, store)?;
    recollect(rt, store, ASSIGNED)?;
    recollect(rt, store, OPEN)?;
    recollect(rt, store, NEVER_ASKED)?;
    Ok(())
}
