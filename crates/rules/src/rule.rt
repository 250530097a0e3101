// The six rules of separation of duty, in their order.
ghost use Rattle.std.specs.Prelude.{◌≡◌};
ghost use Rattle.rules.specs.Rules.{rule_number};

// The rules, with the place of each in the order.
#[derive(Clone, Copy, PartialEq, Eq, Debug)]
pub enum Rule {
    // No role lies above itself.
    NoCycle = 1,
    // No role reaches both of two conflicting roles.
    RolesApart = 2,
    // If two roles conflict, one party does not hold both between them.
    PartiesApart = 3,
    // If two permissions conflict, every role assigned the one conflicts with every role assigned the other.
    PermissionsApart = 4,
    // The same for two tasks.
    TasksApart = 5,
    // If two tasks are at odds, one party has not taken both in one open case.
    TakersApart = 6,
}

impl From<Rule> for u8 {
    ghost from_gives = { λ rule n. n ≡ rule_number rule };

    fn from(rule: Rule) -> u8 {
        rule as u8
    }
}
