// A store above another that counts the calls that reach it, so that a test can tell what a question costs.
#![tactic(auto)]

ghost use Rattle.std.specs.Prelude.{◌≡◌, ℕ};
ghost use Rattle.facts.specs.Stores.{Put, Take};
ghost use Rattle.counting.specs.Counts.{counted};

use facts::fact::Fact;
use facts::refusal::Refusal;
use facts::store::Store;

#[derive(Drop)]
pub struct Counting<S> {
    below: S,
    asked: u64,
    changed: u64,
}

impl<S> Counting<S> {
    pub fn new(below: S) -> Counting<S>
        ensures below { result.below ≡ below }
        ensures asked { result.asked ≡ 0 }
        ensures changed { result.changed ≡ 0 }
    {
        Counting {
            below,
            asked: 0,
            changed: 0,
        }
    }

    // How often has was called.
    pub fn asked(&self) -> u64
        ensures { result ≡ self.now.asked }
    {
        self.asked
    }

    // How often put or take was called.
    pub fn changed(&self) -> u64
        ensures { result ≡ self.now.changed }
    {
        self.changed
    }
}

impl<S: Store> Store for Counting<S> {
    const MOST: usize = S::MOST;

    ghost limit = { S.limit };

    ghost facts = { λ c. S.facts c.below };

    ghost spare = { λ c. S.spare c.below };

    ghost sound = { λ c. S.sound c.below };

    ghost outside = { λ c d. S.outside c.below d.below };

    ghost only = { λ c h. S.only c.below h };

    ghost bounded = { λ c. S.bounded c.below };

    ghost unmoved = { λ c. S.unmoved c.below };

    ghost chained = { λ c d e. S.chained c.below d.below e.below };

    fn most_facts() -> usize {
        S::most_facts()
    }

    fn has(&mut self, fact: Fact) -> bool
        ensures value { S.sound self.old.below → result ≡ S.facts self.old.below fact }
        ensures kept { S.sound self.old.below → S.sound self.new.below }
        ensures facts { S.facts self.new.below ≡ S.facts self.old.below }
        ensures spare { S.spare self.new.below ≡ S.spare self.old.below }
        ensures outside { S.outside self.old.below self.new.below }
        ensures asked { self.new.asked ≡ counted self.old.asked }
        ensures changed { self.new.changed ≡ self.old.changed }
    {
        self.asked = self.asked.saturating_add(1);
        self.below.has(fact)
    }

    fn put(&mut self, fact: Fact) -> Result<(), Refusal>
        ensures kept { S.sound self.old.below → S.sound self.new.below }
        ensures does { S.sound self.old.below
            → Put fact (S.facts self.old.below) (S.spare self.old.below) result
            (S.facts self.new.below) (S.spare self.new.below) }
        ensures outside { S.outside self.old.below self.new.below }
        ensures asked { self.new.asked ≡ self.old.asked }
        ensures changed { self.new.changed ≡ counted self.old.changed }
    {
        self.changed = self.changed.saturating_add(1);
        self.below.put(fact)
    }

    fn take(&mut self, fact: Fact)
        ensures kept { S.sound self.old.below → S.sound self.new.below }
        ensures does { S.sound self.old.below
            → Take fact (S.facts self.old.below) (S.spare self.old.below)
            (S.facts self.new.below) (S.spare self.new.below) }
        ensures outside { S.outside self.old.below self.new.below }
        ensures asked { self.new.asked ≡ self.old.asked }
        ensures changed { self.new.changed ≡ counted self.old.changed }
    {
        self.changed = self.changed.saturating_add(1);
        self.below.take(fact);
    }

    fn spare(&self) -> usize {
        self.below.spare()
    }

    fn empty(&self) -> bool {
        self.below.empty()
    }
}
