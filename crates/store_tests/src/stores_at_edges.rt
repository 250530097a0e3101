// What every kind of store does alike, and its most.
// Kinds stand as their numbers, so that a test does not lean on the enum that it tests.
use cache::Cache;
use facts::fact::Fact;
use facts::laws::{put_then_has, put_then_take, put_twice, spare_within, take_then_has};
use facts::store::Store;
use grid::Grid;
use list::List;
use std::test::Fail;

const NO_FACT: Fact = Fact {
    kind: 0,
    a: 0,
    b: 0,
    c: 0,
};

const ASSIGNED: Fact = Fact {
    kind: 1,
    a: 20,
    b: 2,
    c: 0,
};

// The last fact of the numbering.
const FINISHED: Fact = Fact {
    kind: 12,
    a: 31,
    b: 31,
    c: 0,
};

fn most_of<S: Store>() -> (usize, usize) {
    (S::MOST, S::most_facts())
}

// What every store does with one fact, from empty and back: as it should, if each answer is true.
fn obeys<S: Store>(store: &mut S) -> [bool; 9] {
    let spare = store.spare();
    let (put, there) = put_then_has(store, FINISHED);
    let twice = put_twice(store, FINISHED);
    let one_less = store.spare().saturating_add(1) == spare;
    let (no_fact, never) = put_then_has(store, NO_FACT);
    put_then_take(store, ASSIGNED);
    let still = store.has(FINISHED) && store.spare() < spare;
    let gone = !take_then_has(store, FINISHED);
    let back = store.empty() && spare_within(store) == spare;
    [
        put.is_ok(),
        there,
        twice.is_ok(),
        one_less,
        no_fact.is_err(),
        !never,
        still,
        gone,
        back,
    ]
}

#[test]
fn most_is_the_kinds_own(rt: HostRuntime) {
    assert_eq!(rt;
        [most_of::<Grid>(), most_of::<List>()],
        [(177_184, 177_184), (4_096, 4_096)]
    );
    assert_eq!(rt;
        [most_of::<Cache<Grid>>(), most_of::<Cache<List>>()],
        [(177_184, 177_184), (4_096, 4_096)]
    );
    assert_eq!(rt;
        [
            most_of::<Cache<Cache<Grid>>>(),
            most_of::<Cache<Cache<List>>>(),
        ],
        [(177_184, 177_184), (4_096, 4_096)]
    );
}

#[test]
fn every_store_obeys(rt: HostRuntime) -> Result<(), Fail> {
    let mut bytes = vec![in rt.alloc(); 0u8; 22_148]?;
    let mut places = [NO_FACT; 9];
    assert_eq!(rt;
        obeys(&mut Grid::new(bytes.as_mut_slice())),
        [true; 9],
        "grid"
    );
    assert_eq!(rt;
        obeys(&mut Cache::new(Grid::new(bytes.as_mut_slice()))),
        [true; 9],
        "grid under a cache"
    );
    assert_eq!(rt; obeys(&mut List::new(&mut places)), [true; 9], "list");
    assert_eq!(rt;
        obeys(&mut Cache::new(Cache::new(List::new(&mut places)))),
        [true; 9],
        "list under two caches"
    );
    Ok(())
}
