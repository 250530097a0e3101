// What every store of facts promises: a set of facts, and a spare, the number of further facts that it takes.
// The promise is made of a sound store: every constructor makes one, and every call keeps it so.
ghost use Rattle.std.specs.Prelude.{◌≡◌, ℕ, ◌≤◌};
ghost use Rattle.facts.specs.Facts.{Facts};
ghost use Rattle.facts.specs.Stores.{Only, Empty, Decides, Put, Take};

use crate::fact::Fact;
use crate::refusal::Refusal;

pub trait Store {
    // The most facts that a store of this kind can take.
    const MOST: usize;

    // The same number, for contracts, which cannot name the constant.
    ghost limit: { ℕ };

    // The set, and the spare.
    ghost facts: { Self → Facts };

    ghost spare: { Self → ℕ };

    // The store's memory is in good order. A kind whose type says so keeps the default.
    ghost sound: { Self → Type 0 } = { λ _. Unit {0} };

    // Of two states: what lies outside the store's part of the caller's memory is the same in both.
    ghost outside: { Self → Self → Type 0 };

    // Only facts are in the set.
    ghost only: { (s : Self) → sound s → Only (facts s) };

    // The spare never exceeds the most.
    ghost bounded: { (s : Self) → spare s ≤ limit };

    // So it is where nothing is done, and where one call follows another.
    ghost unmoved: { (s : Self) → outside s s };

    ghost chained: { (s t u : Self) → outside s t → outside t u → outside s u };

    fn most_facts() -> usize
        ensures { result ≡ limit };

    fn has(&mut self, fact: Fact) -> bool
        ensures value { sound self.old → result ≡ facts self.old fact }
        ensures kept { sound self.old → sound self.new }
        ensures facts { facts self.new ≡ facts self.old }
        ensures spare { spare self.new ≡ spare self.old }
        ensures outside { outside self.old self.new };

    fn put(&mut self, fact: Fact) -> Result<(), Refusal>
        ensures kept { sound self.old → sound self.new }
        ensures does { sound self.old
            → Put fact (facts self.old) (spare self.old) result
            (facts self.new) (spare self.new) }
        ensures outside { outside self.old self.new };

    fn take(&mut self, fact: Fact)
        ensures kept { sound self.old → sound self.new }
        ensures does { sound self.old
            → Take fact (facts self.old) (spare self.old)
            (facts self.new) (spare self.new) }
        ensures outside { outside self.old self.new };

    fn spare(&self) -> usize
        ensures { result ≡ spare self.now };

    fn empty(&self) -> bool
        ensures { sound self.now → Decides result (Empty (facts self.now)) };
}
