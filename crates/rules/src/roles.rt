// Who reaches, holds and carries what. Each call asks the store and changes nothing of it, and walks on the caller's sheet.
// Each sets its inquiry up in the same few lines. A constructor was tried, and the proof does not close: a sheet that is lent
// through it comes back unknown. A function that took the question as a closure would have to say in its contract what the
// question means. The store and the sheet are two, since each is lent for the one call.
ghost use Rattle.std.specs.Prelude.{◌<◌, length};
ghost use Rattle.facts.specs.Stores.{Decides};
ghost use Rattle.rules.specs.Asking.{Asks, Exactly};
ghost use Rattle.rules.specs.Calls.{Answered, Sheet};
ghost use Rattle.rules.specs.Roles.{Reaches, Above, Holds, Carries, Has};

use crate::change::Change;
use crate::inquiry::Inquiry;
use crate::refusal::{Refusal, admit};
use crate::relations::{Is, RolesOf};
use crate::role_set::RoleSet;
use crate::walk::Way;
use facts::fact::{Entry, Kind};
use facts::store::Store;

// Whether the first role reaches the second.
pub fn reaches<S: Store>(
    store: &mut S,
    senior: u32,
    junior: u32,
    sheet: &mut [u8],
) -> Result<bool, Refusal>
    ensures answer { Answered ((senior < 64) × (junior < 64)) (length sheet.old) result
        (λ b. S.sound store.old → Decides b (Reaches (S.facts store.old) senior junior)) }
    ensures sheet { Sheet result sheet.old sheet.new }
    ensures asks { Asks S.Store store.old store.new }
{
    let (senior, junior) = admit(Entry::Role, senior, Entry::Role, junior)?;
    let marks = sheet.first_chunk_mut().ok_or(Refusal::ShortSheet)?;
    let mut inquiry = Inquiry {
        store,
        change: Change::Nothing,
        marks,
    };
    Ok(inquiry.leads(&Is(senior), &Is(junior)))
}

// Whether the first role lies above the second.
pub fn lies_above<S: Store>(
    store: &mut S,
    senior: u32,
    junior: u32,
    sheet: &mut [u8],
) -> Result<bool, Refusal>
    ensures answer { Answered ((senior < 64) × (junior < 64)) (length sheet.old) result
        (λ b. S.sound store.old → Decides b (Above (S.facts store.old) senior junior)) }
    ensures sheet { Sheet result sheet.old sheet.new }
    ensures asks { Asks S.Store store.old store.new }
{
    let (senior, junior) = admit(Entry::Role, senior, Entry::Role, junior)?;
    let marks = sheet.first_chunk_mut().ok_or(Refusal::ShortSheet)?;
    let mut inquiry = Inquiry {
        store,
        change: Change::Nothing,
        marks,
    };
    Ok(inquiry.is_above(senior, junior))
}

// Whether a user holds a role.
pub fn holds<S: Store>(
    store: &mut S,
    user: u32,
    role: u32,
    sheet: &mut [u8],
) -> Result<bool, Refusal>
    ensures answer { Answered ((user < 128) × (role < 64)) (length sheet.old) result
        (λ b. S.sound store.old → Decides b (Holds (S.facts store.old) user role)) }
    ensures sheet { Sheet result sheet.old sheet.new }
    ensures asks { Asks S.Store store.old store.new }
{
    let (user, role) = admit(Entry::User, user, Entry::Role, role)?;
    let marks = sheet.first_chunk_mut().ok_or(Refusal::ShortSheet)?;
    let mut inquiry = Inquiry {
        store,
        change: Change::Nothing,
        marks,
    };
    Ok(inquiry.user_holds(user, role))
}

// Whether a role carries a permission.
pub fn carries<S: Store>(
    store: &mut S,
    role: u32,
    permission: u32,
    sheet: &mut [u8],
) -> Result<bool, Refusal>
    ensures answer { Answered ((role < 64) × (permission < 64)) (length sheet.old) result
        (λ b. S.sound store.old → Decides b (Carries (S.facts store.old) role permission)) }
    ensures sheet { Sheet result sheet.old sheet.new }
    ensures asks { Asks S.Store store.old store.new }
{
    let (role, permission) = admit(Entry::Role, role, Entry::Permission, permission)?;
    let marks = sheet.first_chunk_mut().ok_or(Refusal::ShortSheet)?;
    let mut inquiry = Inquiry {
        store,
        change: Change::Nothing,
        marks,
    };
    Ok(inquiry.leads(&Is(role), &RolesOf(Kind::PermissionRole, permission)))
}

// Whether a user has a permission.
pub fn has_permission<S: Store>(
    store: &mut S,
    user: u32,
    permission: u32,
    sheet: &mut [u8],
) -> Result<bool, Refusal>
    ensures answer { Answered ((user < 128) × (permission < 64)) (length sheet.old) result
        (λ b. S.sound store.old → Decides b (Has (S.facts store.old) user permission)) }
    ensures sheet { Sheet result sheet.old sheet.new }
    ensures asks { Asks S.Store store.old store.new }
{
    let (user, permission) = admit(Entry::User, user, Entry::Permission, permission)?;
    let marks = sheet.first_chunk_mut().ok_or(Refusal::ShortSheet)?;
    let mut inquiry = Inquiry {
        store,
        change: Change::Nothing,
        marks,
    };
    Ok(inquiry.user_has(user, permission))
}

// The roles that a role reaches.
pub fn roles_reached<S: Store>(
    store: &mut S,
    role: u32,
    sheet: &mut [u8],
) -> Result<RoleSet, Refusal>
    ensures answer { Answered (role < 64) (length sheet.old) result
        (λ x. S.sound store.old → Exactly x (Reaches (S.facts store.old) role)) }
    ensures sheet { Sheet result sheet.old sheet.new }
    ensures asks { Asks S.Store store.old store.new }
{
    let (role, _) = admit(Entry::Role, role, Entry::Unused, 0)?;
    let marks = sheet.first_chunk_mut().ok_or(Refusal::ShortSheet)?;
    let mut inquiry = Inquiry {
        store,
        change: Change::Nothing,
        marks,
    };
    Ok(inquiry.roles_from(&Is(role), Way::Down))
}

// The roles that a user holds.
pub fn roles_held<S: Store>(store: &mut S, user: u32, sheet: &mut [u8]) -> Result<RoleSet, Refusal>
    ensures answer { Answered (user < 128) (length sheet.old) result
        (λ x. S.sound store.old → Exactly x (Holds (S.facts store.old) user)) }
    ensures sheet { Sheet result sheet.old sheet.new }
    ensures asks { Asks S.Store store.old store.new }
{
    let (user, _) = admit(Entry::User, user, Entry::Unused, 0)?;
    let marks = sheet.first_chunk_mut().ok_or(Refusal::ShortSheet)?;
    let mut inquiry = Inquiry {
        store,
        change: Change::Nothing,
        marks,
    };
    Ok(inquiry.held_by(user))
}
