// What is made ready once for a call: the updates of states and delays through the map of nodes, and the bases of the delay lines.
ghost use Rattle.std.specs.Prelude.{◌≡◌, length};
ghost use Rattle.memory.specs.Lent.{the_memories, the_signals, KeepsTables};
ghost use Rattle.memory.specs.Signals.{rendered};
ghost use Rattle.graph_run.specs.Run.{samples_to};
ghost use Rattle.graph_run.specs.Ready.{Lent};
ghost use Rattle.graph_run.specs.Plan.{mapped_graph, Planned};

use crate::sample::Graph;
use crate::samples;
use block::Block;
use expand::map;
use memory::lines;
use memory::lines::{Lines, Memories};
use memory::signals::Signals;

// The samples of a call. `values` holds the map of nodes when they begin. The structs, and beside them the count and the tables that this call alone reads or writes.
pub fn play(
    block: &Block<'_>,
    expansion: &[u32],
    count: usize,
    signals: &Signals<'_>,
    values: &mut [u32],
    memories: &mut Memories<'_>,
    output: &mut [u32],
)
    requires planned { Planned count expansion.now values.old block.now.header.output block.now.states.now block.now.delays.now (length signals.now.settings.now) (the_memories memories.old) }
    requires lent { Lent block.now.header.network signals.now.input.now signals.now.network.now output.old }
    ensures rendered { rendered output.new (the_memories memories.new)
        ≡ samples_to (mapped_graph count expansion.now values.old block.now.header.output block.now.states.now block.now.delays.now) block.now.header.network (the_signals signals.now) (rendered output.old (the_memories memories.old)) (length signals.now.input.now) }
    ensures same_tables { KeepsTables memories.old memories.new }
{
    let updates = map::mapped_updates(block.states, values);
    let stores = map::mapped_updates(block.delays, values);
    let bases = lines::line_bases(block.delays);
    let at = block.header.output as usize;
    let graph = Graph {
        nodes: &expansion[..3 * count],
        output: values[at] as usize,
        updates: &updates[..block.states.len() / 2],
        stores: &stores[..block.delays.len() / 2],
        lines: Lines {
            delays: block.delays,
            bases: &bases,
        },
    };
    samples::samples(
        &graph,
        block.header.network,
        signals,
        &mut values[..count],
        memories,
        output,
    );
}
