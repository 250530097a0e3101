// Tests of facts and stores at the edges of their ranges.
#![tactic(auto)]

#[cfg(test)]
mod calls;
#[cfg(test)]
mod facts_at_edges;
#[cfg(test)]
mod memory_at_edges;
#[cfg(test)]
mod stores_at_edges;
