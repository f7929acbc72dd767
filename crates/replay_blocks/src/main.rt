// Replays the Rust's answers on validation and expansion: reads blocks from standard input, whose first lines say
// how they are written, and prints the number of each block that is not answered so, and counts.
#![tactic(auto)]

mod judge;

use std::io;

fn main(rt: HostRuntime) -> io::Result<()> {
    let tally = replay::replay(&rt, "block", judge::agrees)?;
    println!(rt;
        "blocks: {} blocks, {} expansions, {} differences",
        tally.seen, tally.accepted, tally.differences
    )
}
