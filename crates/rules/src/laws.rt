// What follows of every set of facts from the relations alone. Each function is there for its contract.
ghost use Rattle.rules.specs.Closing.{Transitive, ClosedUnderLinks, AddingKeeps, SeparateByRules};

// What a reached role reaches is reached.
pub fn reach_is_transitive()
    ensures { Transitive }
{}

// A set of roles that is closed under links contains all that its roles reach.
pub fn closed_sets_contain_the_reached()
    ensures { ClosedUnderLinks }
{}

// Adding facts takes no role, permission or conflict away.
pub fn adding_takes_nothing_away()
    ensures { AddingKeeps }
{}

// Where the rules on parties and on permissions hold, no party has two conflicting permissions.
pub fn parties_are_separate()
    ensures { SeparateByRules }
{}
