// Replays the Rust's compiles: reads calls from standard input, whose first lines say how they are written, and prints the
// number of each call that is not answered so, and counts.
#![tactic(auto)]

mod judge;

use std::io;

fn main(rt: HostRuntime) -> io::Result<()> {
    let tally = replay::replay(&rt, "call", judge::agrees)?;
    println!(rt;
        "compiles: {} calls, {} kernels, {} steps, {} refusals, {} differences",
        tally.seen, tally.accepted, tally.steps, tally.refused, tally.differences
    )
}
