// What the stores do with the caller's memory, and what a cache remembers.
// Kinds stand as their numbers, so that a test does not lean on the enum that it tests.
ghost use Rattle.grid.specs.Bits.{GridKeeps};

use crate::calls::put;
use cache::Cache;
use facts::fact::Fact;
use facts::store::Store;
use grid::Grid;
use list::List;
use std::test::Fail;

const NO_FACT: Fact = Fact {
    kind: 0,
    a: 0,
    b: 0,
    c: 0,
};

const FIRST: Fact = Fact {
    kind: 1,
    a: 0,
    b: 0,
    c: 0,
};

// In the same slot of a cache as the first.
const BESIDE: Fact = Fact {
    kind: 1,
    a: 1,
    b: 41,
    c: 0,
};

const LAST: Fact = Fact {
    kind: 12,
    a: 31,
    b: 31,
    c: 0,
};

const GUARD: u8 = 0xa5;

// Puts a fact into a new grid and lets the grid go. The caller's bytes behind it are as they were, and all of fewer.
fn put_and_let_go(bytes: &mut [u8], fact: Fact) -> bool
    ensures { GridKeeps bytes.entry bytes.exit }
{
    let mut grid = Grid::new(bytes);
    grid.put(fact).is_ok()
}

// The grid's first byte and its last, and the byte behind it.
fn edges(bytes: &[u8]) -> [Option<u8>; 3] {
    [
        bytes.get(0).copied(),
        bytes.get(22_147).copied(),
        bytes.get(22_148).copied(),
    ]
}

#[test]
fn a_grid_ends_at_its_last_byte(rt: HostRuntime) -> Result<(), Fail> {
    let mut bytes = vec![in rt.alloc(); GUARD; 22_149]?;
    assert!(rt; put_and_let_go(&mut bytes.as_mut_slice()[0..22_148], FIRST));
    assert_eq!(rt; edges(&bytes), [Some(1), Some(0), Some(GUARD)]);
    assert!(rt; put_and_let_go(bytes.as_mut_slice(), LAST));
    assert_eq!(rt; edges(&bytes), [Some(0), Some(0x80), Some(GUARD)]);
    Ok(())
}

#[test]
fn a_grid_under_a_cache_ends_there_too(rt: HostRuntime) -> Result<(), Fail> {
    let mut bytes = vec![in rt.alloc(); GUARD; 22_149]?;
    let mut cache = Cache::new(Grid::new(bytes.as_mut_slice()));
    let spare = cache.spare();
    let answers = [put(&mut cache, LAST), put(&mut cache, FIRST)];
    cache.take(LAST);
    assert_eq!(rt;
        ([spare, cache.spare()], answers),
        ([177_184, 177_183], [Ok(()), Ok(())])
    );
    assert_eq!(rt; edges(&bytes), [Some(1), Some(0), Some(GUARD)]);
    Ok(())
}

#[test]
fn a_grid_of_fewer_bytes_writes_nothing(rt: HostRuntime) -> Result<(), Fail> {
    let mut bytes = vec![in rt.alloc(); GUARD; 22_148]?;
    let mut grid = Grid::new(&mut bytes.as_mut_slice()[0..22_147]);
    let answers = [put(&mut grid, FIRST), put(&mut grid, NO_FACT)];
    grid.take(FIRST);
    assert_eq!(rt;
        (answers, grid.spare(), grid.empty(), grid.has(FIRST)),
        ([Err(23), Err(1)], 0, true, false)
    );
    let untouched = vec![in rt.alloc(); GUARD; 22_148]?;
    assert!(rt; bytes == untouched);
    Ok(())
}

#[test]
fn a_full_list_refuses_and_a_take_makes_room(rt: HostRuntime) {
    let mut places = [NO_FACT; 2];
    let mut list = List::new(&mut places);
    let full = [
        put(&mut list, FIRST),
        put(&mut list, BESIDE),
        put(&mut list, LAST),
        put(&mut list, FIRST),
    ];
    list.take(FIRST);
    let spare = list.spare();
    let again = [put(&mut list, LAST), put(&mut list, FIRST)];
    assert_eq!(rt;
        (full, spare, again),
        ([Ok(()), Ok(()), Err(23), Ok(())], 1, [Ok(()), Err(23)])
    );
    assert_eq!(rt;
        [list.has(FIRST), list.has(BESIDE), list.has(LAST)],
        [false, true, true]
    );
}

// The facts of kind 11 with case 0, in their order.
fn taken(n: usize) -> Fact {
    Fact {
        kind: 11,
        a: 0,
        b: (n / 128 % 32) as u8,
        c: (n % 128) as u8,
    }
}

#[test]
fn a_list_uses_4096_places(rt: HostRuntime) -> Result<(), Fail> {
    let mut places = vec![in rt.alloc(); LAST; 4_098]?;
    let mut list = List::new(places.as_mut_slice());
    let spare = list.spare();
    for n in 0..4_096 {
        let _ = put(&mut list, taken(n));
    }
    assert_eq!(rt;
        (
            [spare, list.spare()],
            [put(&mut list, FIRST), put(&mut list, taken(4_095))],
        ),
        ([4_096, 0], [Err(23), Ok(())])
    );
    let ends = [
        places.get(4_095).copied(),
        places.get(4_096).copied(),
        places.get(4_097).copied(),
    ];
    assert_eq!(rt; ends, [Some(taken(4_095)), Some(LAST), Some(LAST)]);
    Ok(())
}

#[test]
fn a_cache_remembers_what_it_was_asked(rt: HostRuntime) {
    let mut places = [NO_FACT; 2];
    let mut cache = Cache::new(List::new(&mut places));
    let unasked = cache.remembers(FIRST);
    let absent = (unasked, cache.has(FIRST), cache.remembers(FIRST));
    let accepted = put(&mut cache, FIRST);
    let there = (
        cache.remembers(FIRST),
        cache.has(BESIDE),
        cache.remembers(FIRST),
        cache.has(FIRST),
    );
    cache.take(FIRST);
    let gone = (
        cache.remembers(FIRST),
        cache.has(FIRST),
        cache.remembers(BESIDE),
    );
    assert_eq!(rt;
        (absent, accepted, there, gone),
        (
            (None, false, Some(false)),
            Ok(()),
            (Some(true), false, None, true),
            (Some(false), false, None),
        )
    );
}

#[test]
fn a_refused_put_is_not_remembered_as_there(rt: HostRuntime) {
    let mut places = [NO_FACT; 1];
    let mut cache = Cache::new(Cache::new(List::new(&mut places)));
    let refused = [
        put(&mut cache, LAST),
        put(&mut cache, FIRST),
        put(&mut cache, NO_FACT),
    ];
    let absent = (
        cache.remembers(FIRST),
        cache.has(FIRST),
        cache.remembers(FIRST),
    );
    cache.take(LAST);
    let accepted = put(&mut cache, FIRST);
    let there = [cache.has(FIRST), cache.has(LAST)];
    assert_eq!(rt;
        (refused, absent, accepted, there),
        (
            [Ok(()), Err(23), Err(1)],
            (None, false, Some(false)),
            Ok(()),
            [true, false],
        )
    );
}
