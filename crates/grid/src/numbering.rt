// The facts numbered one-to-one onto 0 to 177,183, kind after kind.
ghost use Rattle.std.specs.Prelude.{◌≡◌, if◌then◌else◌, Some, None};
ghost use Rattle.facts.specs.Facts.{is_fact};
ghost use Rattle.grid.specs.Numbers.{base, bit_number, Numbering};

use facts::fact::{Fact, Kind};

// Where the numbers of a kind begin.
fn base(kind: Kind) -> usize
    ensures { result ≡ base kind }
{
    match kind {
        Kind::UserRole => 0,
        Kind::PermissionRole => 8_192,
        Kind::TaskRole => 12_288,
        Kind::Senior => 14_336,
        Kind::UserConflict => 18_432,
        Kind::RoleConflict => 34_816,
        Kind::PermissionConflict => 38_912,
        Kind::TaskConflict => 43_008,
        Kind::AtOdds => 44_032,
        Kind::OpenCase => 45_056,
        Kind::Taken => 45_088,
        Kind::Finished => 176_160,
    }
}

// The number of a fact, or none where the four numbers are no fact.
#[tactic(auto, using(std::proofs::lemmas::Bool::Decides::nat_tests, facts::proofs::Ranges::some_told, crate::proofs::Onto::number_at, crate::proofs::Onto::numbering))]
pub fn bit_number(fact: Fact) -> Option<usize>
    ensures value { result ≡ (if is_fact fact then Some (bit_number fact) else None) }
    ensures onto { Numbering 177184 bit_number }
{
    let kind = fact.kind_of_fact()?;
    let (_, second, third) = kind.entries();
    let row = fact.a as usize * second.size() as usize + fact.b as usize;
    Some(base(kind) + row * third.size() as usize + fact.c as usize)
}
