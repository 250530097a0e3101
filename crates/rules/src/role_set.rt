// A set of roles, as a value: an array of answers, since a set on the heap would need memory that can run out.
ghost use Rattle.std.specs.Prelude.{◌≡◌, ◌<◌};
ghost use Rattle.facts.specs.Stores.{Decides};
ghost use Rattle.rules.specs.Asking.{Among};

#[derive(Clone, Copy)]
pub struct RoleSet {
    pub(crate) members: [bool; 64],
}

impl RoleSet {
    // Whether a role is in the set; no other number is.
    pub fn contains(&self, role: u32) -> bool
        ensures { Decides result (Among self.now role) }
    {
        role < 64 && self.members[role as usize]
    }
}
