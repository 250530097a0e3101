// Keeps a role network in a grid under a cache, and tells who holds what, and which rule a change would break.
#![tactic(auto)]

mod network;

use cache::Cache;
use grid::Grid;
use network::show_network;
use std::io;

fn main(rt: HostRuntime) -> io::Result<()> {
    let heap = rt.alloc();
    let mut bytes = vec![in heap; 0u8; 22_148]?;
    println!(rt; "a role network in a grid under a cache")?;
    let mut network = Cache::new(Grid::new(bytes.as_mut_slice()));
    show_network(&rt, &mut network)
}
