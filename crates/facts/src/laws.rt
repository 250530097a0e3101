// What follows for every store from the promise alone, with no look at how a store is made.
ghost use Rattle.std.specs.Prelude.{◌≡◌, ◌≤◌, false, is_ok};
ghost use Rattle.facts.specs.Stores.{Put, Take};

use crate::fact::Fact;
use crate::refusal::Refusal;
use crate::store::Store;

// After a put the fact is there exactly when the put was accepted.
#[tactic(auto, using(std::proofs::lemmas::Bool::Decides::nat_tests, crate::proofs::Sets::same_refl))]
pub fn put_then_has<S: Store>(store: &mut S, added: Fact) -> (Result<(), Refusal>, bool)
    ensures kept { S.sound store.old → S.sound store.new }
    ensures outside { S.outside store.old store.new }
    ensures told { S.sound store.old → result.1 ≡ is_ok result.0 }
    ensures does { S.sound store.old
        → Put added (S.facts store.old) (S.spare store.old) result.0
        (S.facts store.new) (S.spare store.new) }
{
    let answer = store.put(added);
    let there = store.has(added);
    (answer, there)
}

// After a take the fact is not there.
#[tactic(auto, using(std::proofs::lemmas::Bool::Decides::nat_tests, crate::proofs::Sets::same_refl))]
pub fn take_then_has<S: Store>(store: &mut S, removed: Fact) -> bool
    ensures kept { S.sound store.old → S.sound store.new }
    ensures outside { S.outside store.old store.new }
    ensures told { S.sound store.old → result ≡ false }
    ensures does { S.sound store.old
        → Take removed (S.facts store.old) (S.spare store.old)
        (S.facts store.new) (S.spare store.new) }
{
    store.take(removed);
    store.has(removed)
}

// Two puts of a fact answer and do what one does.
#[tactic(auto, using(crate::proofs::Sets::put_again))]
pub fn put_twice<S: Store>(store: &mut S, repeated: Fact) -> Result<(), Refusal>
    ensures kept { S.sound store.old → S.sound store.new }
    ensures outside { S.outside store.old store.new }
    ensures does { S.sound store.old
        → Put repeated (S.facts store.old) (S.spare store.old) result
        (S.facts store.new) (S.spare store.new) }
{
    let _ = store.put(repeated);
    store.put(repeated)
}

// A put and a take of a fact do what the take alone does.
#[tactic(auto, using(crate::proofs::Sets::put_taken))]
pub fn put_then_take<S: Store>(store: &mut S, passing: Fact)
    ensures kept { S.sound store.old → S.sound store.new }
    ensures outside { S.outside store.old store.new }
    ensures does { S.sound store.old
        → Take passing (S.facts store.old) (S.spare store.old)
        (S.facts store.new) (S.spare store.new) }
{
    let _ = store.put(passing);
    store.take(passing);
}

// The spare never exceeds the most.
pub fn spare_within<S: Store>(store: &S) -> usize
    ensures value { result ≡ S.spare store.now }
    ensures within { result ≤ S.limit }
{
    store.spare()
}
