// One change of the facts.
use facts::fact::Fact;

#[derive(Clone, Copy)]
pub enum Change {
    Nothing,
    Add(Fact),
    Remove(Fact),
}
