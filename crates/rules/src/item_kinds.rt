// The two sorts of items, permissions and tasks, of which one rule each says the same.
ghost use Rattle.rules.specs.Judging.{Conflicting};

use facts::fact::Kind;

// By which kind of fact items are assigned to roles, by which they conflict, and how many there are.
#[derive(Clone, Copy)]
pub(crate) struct ItemKinds {
    pub(crate) assigned: Kind,
    pub(crate) conflict: Kind,
    pub(crate) end: u8,
    ghost conflicting: { Conflicting assigned conflict end },
}

impl ItemKinds {
    pub(crate) const PERMISSIONS: ItemKinds = ItemKinds {
        assigned: Kind::PermissionRole,
        conflict: Kind::PermissionConflict,
        end: 64,
    };

    pub(crate) const TASKS: ItemKinds = ItemKinds {
        assigned: Kind::TaskRole,
        conflict: Kind::TaskConflict,
        end: 32,
    };
}
