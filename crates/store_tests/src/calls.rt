// A put whose refusal is its number, so that a test shows a wrong number too.
use facts::fact::Fact;
use facts::store::Store;

pub(crate) fn put<S: Store>(store: &mut S, fact: Fact) -> Result<(), u8> {
    store.put(fact).map_err(u8::from)
}
