// Writes and reads back files at the limits of a block of 124 payload words, and reads damaged copies of them. Prints how many there
// were, and how many got another answer than document 01 names.
#![tactic(auto)]

mod answer;
mod damage;
mod effects;
mod renderings;
mod table_words;

use damage::{Subject, Tally, pairs};
use house::{Contents, Engine};
use std::io;

// The numbers of samples: a payload of 1, 123, 124, 125 and 248 words, and one of many.
const SAMPLES: [u32; 6] = [0, 122, 123, 124, 247, 10_000];

// The blocks: a payload of 12, 123, 124, 125 and 248 words, and one with 1,689.
fn blocks() -> [Contents; 6] {
    [
        effects::contents(0, 0, 0, 1),
        effects::contents(0, 0, 0, 38),
        effects::contents(0, 1, 1, 37),
        effects::contents(0, 1, 0, 38),
        effects::contents(1, 1, 0, 78),
        effects::contents(20, 30, 30, 500),
    ]
}

fn blocks_read_back() -> usize {
    blocks()
        .iter()
        .filter(|contents| effects::round_trip(**contents))
        .count()
}

fn renderings_read_back(engine: Engine) -> usize {
    SAMPLES
        .iter()
        .filter(|count| renderings::round_trip(engine, **count))
        .count()
}

fn print_round_trips(rt: &impl Print, subject: &str, count: usize) -> io::Result<()> {
    println!(rt; "{subject}: {count} of 6 read back")
}

fn print_tally(rt: &impl Print, subject: &str, tally: Tally) -> io::Result<()> {
    println!(rt;
        "{subject}: {} read, {} of 20, {} of 21, {} wrong",
        tally.read, tally.checks, tally.frames, tally.wrong
    )
}

fn main(rt: HostRuntime) -> io::Result<()> {
    let block = Subject::Block;
    let graph = Subject::Rendering(Engine::Graph);
    let steps = Subject::Rendering(Engine::Steps);
    print_round_trips(&rt, "blocks", blocks_read_back())?;
    print_round_trips(&rt, "graph renderings", renderings_read_back(Engine::Graph))?;
    print_round_trips(&rt, "step renderings", renderings_read_back(Engine::Steps))?;
    print_tally(&rt, "one bit of a block", block.flips())?;
    print_tally(&rt, "one bit of a graph rendering", graph.flips())?;
    print_tally(&rt, "one bit of a step rendering", steps.flips())?;
    print_tally(&rt, "two bits, kind", pairs(Engine::Graph, 0))?;
    print_tally(&rt, "two bits, number", pairs(Engine::Graph, 1))?;
    print_tally(&rt, "two bits, used count", pairs(Engine::Graph, 2))?;
    print_tally(&rt, "two bits, first payload word", pairs(Engine::Steps, 3))?;
    print_tally(
        &rt,
        "two bits, another payload word",
        pairs(Engine::Steps, 64),
    )?;
    print_tally(&rt, "cut block", block.cuts())?;
    print_tally(&rt, "cut graph rendering", graph.cuts())?;
    print_tally(&rt, "cut step rendering", steps.cuts())
}
