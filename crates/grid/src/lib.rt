// A store with one bit for each fact, in the first 22,148 bytes of the caller's.
// Over fewer bytes it has no facts and no spare, and writes nothing.
#![tactic(auto)]

ghost use Rattle.std.specs.Prelude.{◌≡◌, ℕ, ◌/◌, ◌<◌, not, length, if◌then◌else◌, nat_eq};
ghost use Rattle.facts.specs.Stores.{Empty};
ghost use Rattle.grid.specs.Bits.{bit_in, bit, enough, grid_facts, grid_spare, Counted, Flipped, GridKeeps};
ghost use Rattle.facts.specs.Lent.{SameBeyond};
ghost use Rattle.grid.specs.GridLaws.{grid_only, grid_bounded, grid_same, grid_on};

pub mod numbering;

use facts::fact::Fact;
use facts::refusal::Refusal;
use facts::store::Store;
use numbering::bit_number;

const BYTES: usize = 22_148;

const FACTS: usize = 177_184;

// The memory is the caller's, so it is no bit set of the grid's own. The count saves going through the bits for the spare.
#[derive(Drop)]
pub struct Grid<'a> {
    bytes: &'a mut [u8],
    count: usize,
    pub ghost counted: { Counted bytes.now count },
}

#[tactic(auto, using(std::proofs::lemmas::Nat::Bits::shr_and_one), unfolding(crate::specs::Bits::bit_in))]
fn is_set(byte: u8, place: usize) -> bool
    requires { place < 8 }
    ensures { result ≡ bit_in byte place }
{
    (byte >> place) & 1 == 1
}

#[tactic(auto, using(crate::proofs::Flips::turned_bit))]
fn flipped(byte: u8, place: usize) -> u8
    requires { place < 8 }
    ensures { (k : ℕ)
        → bit_in result k ≡ (if nat_eq k place then not (bit_in byte place) else bit_in byte k) }
{
    byte ^ (1 << place)
}

// Turns the bit of a number round.
fn flip(bytes: &mut [u8], number: usize)
    requires { (number / 8 < length bytes.old) × (number < 177184) }
    ensures bits { Flipped number bytes.old bytes.new }
    ensures outside { SameBeyond 22148 bytes.entry bytes.exit }
{
    bytes[number / 8] = flipped(bytes[number / 8], number % 8);
}

impl<'a> Grid<'a> {
    // An empty grid: the bits are cleared.
    pub fn new(bytes: &'a mut [u8]) -> Grid<'a>
        ensures empty { Empty (grid_facts result.bytes.now) }
        ensures spare { grid_spare result.bytes.now result.count
            ≡ (if enough bytes.old then 177184 else 0) }
        ensures outside { GridKeeps bytes.entry result.bytes }
    {
        if let Some(bits) = bytes.first_chunk_mut::<BYTES>() {
            bits.fill(0);
        }
        Grid { bytes, count: 0 }
    }

    fn is_wide(&self) -> bool
        ensures { result ≡ enough self.now.bytes.now }
    {
        self.bytes.len() >= BYTES
    }

    fn holds(&self, number: usize) -> bool
        requires { number / 8 < length self.now.bytes.now }
        ensures { result ≡ bit self.now.bytes.now number }
    {
        is_set(self.bytes[number / 8], number % 8)
    }
}

impl<'a> Store for Grid<'a> {
    const MOST: usize = FACTS;

    ghost limit = { 177184 };

    ghost facts = { λ g. grid_facts g.bytes.now };

    ghost spare = { λ g. grid_spare g.bytes.now g.count };

    ghost outside = { λ g h. GridKeeps g.bytes h.bytes };

    ghost only = { λ g _. grid_only g.bytes.now };

    ghost bounded = { λ g. grid_bounded g.bytes.now g.count };

    ghost unmoved = { λ g. grid_same g.bytes };

    ghost chained = { λ g h i. grid_on g.bytes h.bytes i.bytes };

    fn most_facts() -> usize
        ensures { result ≡ 177184 }
    {
        Self::MOST
    }

    fn has(&mut self, fact: Fact) -> bool {
        match bit_number(fact) {
            Some(number) => self.is_wide() && self.holds(number),
            None => false,
        }
    }

    fn put(&mut self, fact: Fact) -> Result<(), Refusal> {
        let Some(number) = bit_number(fact) else {
            return Err(Refusal::NoFact);
        };
        if !self.is_wide() {
            return Err(Refusal::Full);
        }
        if self.holds(number) {
            return Ok(());
        }
        let Grid { bytes, count } = self;
        flip(bytes, number);
        *count += 1;
        Ok(())
    }

    fn take(&mut self, fact: Fact) {
        if let Some(number) = bit_number(fact) {
            if self.is_wide() && self.holds(number) {
                let Grid { bytes, count } = self;
                flip(bytes, number);
                *count -= 1;
            }
        }
    }

    #[tactic(auto, using(crate::proofs::Grids::count_within))]
    fn spare(&self) -> usize {
        if self.is_wide() {
            FACTS - self.count
        } else {
            0
        }
    }

    #[tactic(auto, using(crate::proofs::Grids::empty_does))]
    fn empty(&self) -> bool {
        self.count == 0
    }
}
