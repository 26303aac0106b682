// Reads a table file from standard input and prints what it holds, or its refusal.
#![tactic(auto)]

use std::io;
use std::io::Read;
use table::listing::{MOST_BYTES, listing};

fn main(rt: HostRuntime) -> io::Result<()> {
    let mut bytes = Vec::new(rt.alloc());
    // `as`, since no `From` makes a `u64` of a `usize`
    let limit = MOST_BYTES as u64 + 1;
    rt.stdin().take(limit).read_to_end(&mut bytes)?;
    let text = listing(rt.alloc(), bytes)?;
    print!(rt; "{text}")
}
