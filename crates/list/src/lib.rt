// A store in a list of places that the caller lends, unsorted: the used places come first.
#![tactic(auto)]

ghost use Rattle.std.specs.Prelude.{◌≡◌, ◌-◌, min, length};
ghost use Rattle.facts.specs.Stores.{Empty};
ghost use Rattle.facts.specs.Lent.{SameBeyond};
ghost use Rattle.facts.specs.LentLaws.{beyond_same, beyond_on};
ghost use Rattle.list.specs.PlaceLaws.{only_facts, within_most};
ghost use Rattle.list.specs.Places.{among, usable, Tidy, Found};

use facts::fact::Fact;
use facts::refusal::Refusal;
use facts::store::Store;

// No `Vec`: the memory is the caller's and fixed, so that a full list is a refusal and not a call for memory.
#[derive(Drop)]
pub struct List<'a> {
    places: &'a mut [Fact],
    used: usize,
    pub ghost tidy: { Tidy places.now used },
}

impl<'a> List<'a> {
    pub fn new(places: &'a mut [Fact]) -> List<'a>
        ensures empty { Empty (among result.places.now result.used) }
        ensures spare { usable result.places.now - result.used ≡ min (length places.old) 4096 }
        ensures named { result.places.ghost_name ≡ places.entry.ghost_name }
        ensures untouched { result.places.now ≡ places.old }
    {
        List { places, used: 0 }
    }

    // How many of the places the store may use.
    fn usable(&self) -> usize
        ensures { result ≡ usable self.now.places.now }
    {
        self.places.len().min(Self::MOST)
    }

    // The place of a fact among the used ones.
    fn find(&self, fact: Fact) -> Option<usize>
        ensures { Found self.now.places.now self.now.used fact result }
    {
        self.places[..self.used]
            .iter()
            .position(|place| *place == fact)
    }
}

impl<'a> Store for List<'a> {
    const MOST: usize = 4096;

    ghost limit = { 4096 };

    ghost facts = { λ s. among s.places.now s.used };

    ghost spare = { λ s. usable s.places.now - s.used };

    ghost outside = { λ s t. SameBeyond 4096 s.places t.places };

    ghost only = { λ s _. only_facts s.places.now s.used s.tidy };

    ghost bounded = { λ s. within_most s.places.now s.used };

    ghost unmoved = { λ s. beyond_same 4096 s.places };

    ghost chained = { λ s t u. beyond_on 4096 s.places t.places u.places };

    fn most_facts() -> usize
        ensures { result ≡ 4096 }
    {
        Self::MOST
    }

    #[tactic(auto, using(crate::proofs::Rows::found_told))]
    fn has(&mut self, fact: Fact) -> bool {
        self.find(fact).is_some()
    }

    #[tactic(auto, using(std::proofs::lemmas::Bool::Decides::nat_tests, crate::specs::PlaceLaws::only_facts, crate::proofs::Rows::found_told, crate::proofs::Rows::put_does, crate::proofs::Rows::rest_set))]
    fn put(&mut self, fact: Fact) -> Result<(), Refusal> {
        if !fact.is_fact() {
            return Err(Refusal::NoFact);
        }
        if self.find(fact).is_some() {
            return Ok(());
        }
        if self.spare() == 0 {
            return Err(Refusal::Full);
        }
        self.places[self.used] = fact;
        self.used += 1;
        Ok(())
    }

    // The last used place fills the gap.
    #[tactic(auto, using(crate::proofs::Rows::rest_set))]
    fn take(&mut self, fact: Fact) {
        if let Some(i) = self.find(fact) {
            let last = self.used - 1;
            self.used = last;
            self.places[i] = self.places[last];
        }
    }

    fn spare(&self) -> usize {
        self.usable() - self.used
    }

    fn empty(&self) -> bool {
        self.used == 0
    }
}
