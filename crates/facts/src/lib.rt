// What a fact of the access book is, and what every store of facts promises.
#![tactic(auto)]

pub mod fact;
pub mod laws;
pub mod refusal;
pub mod store;
