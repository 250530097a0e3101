// Who reaches, holds and carries what in the role network, and the six rules of separation of duty.
#![tactic(auto)]

pub mod change;
mod conflicts;
mod inquiry;
mod item_kinds;
pub mod judge;
pub mod laws;
pub mod refusal;
mod relations;
pub mod role_set;
pub mod roles;
pub mod rule;
mod suspects;
mod takers;
mod walk;
