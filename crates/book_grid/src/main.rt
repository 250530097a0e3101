// Keeps a small release in a grid under a cache, in a list, and in a list under two caches, and tells what each call
// answers: the same in all three.
#![tactic(auto)]

mod runs;
mod step;

use cache::Cache;
use facts::fact::{Fact, Kind};
use grid::Grid;
use list::List;
use runs::{keep_release, keep_remembered, show};
use std::io;
use step::Step;

const NO_FACT: Fact = Fact {
    kind: 0,
    a: 0,
    b: 0,
    c: 0,
};

fn main(rt: HostRuntime) -> io::Result<()> {
    let heap = rt.alloc();
    let mut bytes = vec![in heap; 0u8; 22_148]?;
    let mut places = vec![in heap; NO_FACT; 4_096]?;

    println!(rt; "a grid under a cache")?;
    let mut grid = Cache::new(Grid::new(bytes.as_mut_slice()));
    keep_remembered(&rt, &mut grid)?;

    println!(rt; "a list")?;
    let mut list = List::new(places.as_mut_slice());
    keep_release(&rt, &mut list)?;

    println!(rt; "a list under two caches")?;
    let mut twice = Cache::new(Cache::new(List::new(places.as_mut_slice())));
    keep_remembered(&rt, &mut twice)?;

    println!(rt; "a store without spare")?;
    let mut few_bytes = vec![in heap; 0u8; 22_147]?;
    let mut narrow = Cache::new(Grid::new(few_bytes.as_mut_slice()));
    show(
        &rt,
        &mut narrow,
        Step::Put(Fact::new(Kind::OpenCase, 0, 0, 0)),
    )
}
