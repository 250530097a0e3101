// A store above another, which remembers some of the answers of the lower one.
// Each fact has one slot, and a slot remembers the last fact that was noted there.
#![tactic(auto)]

ghost use Rattle.std.specs.Prelude.{◌≡◌, ◌<◌, Bool, true, false, length, Some, None, Ok};
ghost use Rattle.facts.specs.declared.fact.Fact.{Fact};
ghost use Rattle.facts.specs.Stores.{Put, Take};
ghost use Rattle.cache.specs.Memory.{slot_of, noted, recalled, Remembered, OthersStay, Honest, AtMost, Faithful};

use facts::fact::Fact;
use facts::refusal::Refusal;
use facts::store::Store;

const SLOTS: usize = 64;

#[derive(Clone, Copy)]
struct Answer {
    fact: Fact,
    there: bool,
}

// An array and no map: a cache asks for no memory, and forgets rather than grow.
#[derive(Drop)]
pub struct Cache<S> {
    below: S,
    slots: [Option<Answer>; SLOTS],
}

#[tactic(auto, unfolding(crate::specs::Memory::slot_of))]
fn slot_of(fact: Fact) -> usize
    ensures value { result ≡ slot_of fact }
    ensures below { result < 64 }
{
    let sum = fact.kind as usize * 7 + fact.a as usize * 5 + fact.b as usize * 3 + fact.c as usize;
    sum % SLOTS
}

// That the slots are 64 is said for the callers, whose proofs do not see the type of what they lend.
#[tactic(auto, unfolding(crate::specs::Memory::recalled), using(std::proofs::lemmas::Grind::common_steps, facts::proofs::Sets::same_refl))]
fn note(slots: &mut [Option<Answer>; SLOTS], fact: Fact, there: bool)
    ensures slots { slots.new ≡ noted slots.old fact there }
    ensures all { length slots.old ≡ 64 }
    ensures remembered { recalled slots.new fact ≡ Some there }
    ensures others { OthersStay fact slots.old slots.new }
{
    slots[slot_of(fact)] = Some(Answer { fact, there });
}

impl<S: Store> Cache<S> {
    pub fn new(below: S) -> Cache<S>
        ensures below { result.below ≡ below }
        ensures nothing { (f : Fact) → recalled result.slots f ≡ None }
        ensures honest { Honest (S.facts below) result.slots }
        ensures sound { S.sound below → Faithful S.sound S.facts result }
    {
        Cache {
            below,
            slots: [None; SLOTS],
        }
    }

    // The answer that is remembered of a fact.
    pub fn remembers(&self, fact: Fact) -> Option<bool>
        ensures value { result ≡ recalled self.now.slots fact }
        ensures honest { Faithful S.sound S.facts self.now
            → (there : Bool) → result ≡ Some there → there ≡ S.facts self.now.below fact }
        ensures few { AtMost 64 (Remembered self.now.slots) }
    {
        self.slots[slot_of(fact)]
            .filter(|answer| answer.fact == fact)
            .map(|answer| answer.there)
    }
}

impl<S: Store> Store for Cache<S> {
    const MOST: usize = S::MOST;

    ghost limit = { S.limit };

    ghost facts = { λ c. S.facts c.below };

    ghost spare = { λ c. S.spare c.below };

    ghost sound = { λ c. Faithful S.sound S.facts c };

    ghost outside = { λ c d. S.outside c.below d.below };

    ghost only = { λ c h. S.only c.below h.lower };

    ghost bounded = { λ c. S.bounded c.below };

    ghost unmoved = { λ c. S.unmoved c.below };

    ghost chained = { λ c d e. S.chained c.below d.below e.below };

    fn most_facts() -> usize {
        S::most_facts()
    }

    fn has(&mut self, fact: Fact) -> bool
        ensures value { Faithful S.sound S.facts self.old → result ≡ S.facts self.old.below fact }
        ensures kept { Faithful S.sound S.facts self.old → Faithful S.sound S.facts self.new }
        ensures facts { S.facts self.new.below ≡ S.facts self.old.below }
        ensures spare { S.spare self.new.below ≡ S.spare self.old.below }
        ensures outside { S.outside self.old.below self.new.below }
        ensures remembered { recalled self.new.slots fact ≡ Some result }
        ensures others { OthersStay fact self.old.slots self.new.slots }
    {
        if let Some(there) = self.remembers(fact) {
            return there;
        }
        let Cache { below, slots } = self;
        let there = below.has(fact);
        note(slots, fact, there);
        there
    }

    fn put(&mut self, fact: Fact) -> Result<(), Refusal>
        ensures kept { Faithful S.sound S.facts self.old → Faithful S.sound S.facts self.new }
        ensures does { Faithful S.sound S.facts self.old → Put fact (S.facts self.old.below) (S.spare self.old.below) result
            (S.facts self.new.below) (S.spare self.new.below) }
        ensures outside { S.outside self.old.below self.new.below }
        ensures remembered { result ≡ Ok tt → recalled self.new.slots fact ≡ Some true }
        ensures others { OthersStay fact self.old.slots self.new.slots }
    {
        let Cache { below, slots } = self;
        below.put(fact)?;
        note(slots, fact, true);
        Ok(())
    }

    fn take(&mut self, fact: Fact)
        ensures kept { Faithful S.sound S.facts self.old → Faithful S.sound S.facts self.new }
        ensures does { Faithful S.sound S.facts self.old → Take fact (S.facts self.old.below) (S.spare self.old.below)
            (S.facts self.new.below) (S.spare self.new.below) }
        ensures outside { S.outside self.old.below self.new.below }
        ensures remembered { recalled self.new.slots fact ≡ Some false }
        ensures others { OthersStay fact self.old.slots self.new.slots }
    {
        let Cache { below, slots } = self;
        below.take(fact);
        note(slots, fact, false);
    }

    fn spare(&self) -> usize {
        self.below.spare()
    }

    fn empty(&self) -> bool {
        self.below.empty()
    }
}
