// The samples of a call, one after the other.
ghost use Rattle.std.specs.Prelude.{◌≡◌, length};
ghost use Rattle.memory.specs.Lent.{the_memories, the_signals, KeepsTables};
ghost use Rattle.memory.specs.Signals.{rendered};
ghost use Rattle.graph_run.specs.Run.{samples_to};
ghost use Rattle.graph_run.specs.Ready.{the_graph, Ready, Lent};

use crate::sample;
use crate::sample::Graph;
use memory::lines::Memories;
use memory::signals::{Given, Signals, network_word};

// An output word for each input word. There are as many values as nodes, and they are only needed within a sample.
pub fn samples(
    graph: &Graph<'_, '_>,
    flag: u32,
    signals: &Signals<'_>,
    values: &mut [u32],
    memories: &mut Memories<'_>,
    output: &mut [u32],
)
    requires ready { Ready (the_graph (length values.old) graph.now) (length signals.now.settings.now) (the_memories memories.old) }
    requires lent { Lent flag signals.now.input.now signals.now.network.now output.old }
    ensures rendered { rendered output.new (the_memories memories.new) ≡ samples_to (the_graph (length values.old) graph.now) flag (the_signals signals.now) (rendered output.old (the_memories memories.old)) (length signals.now.input.now) }
    ensures same_tables { KeepsTables memories.old memories.new }
{
    for t in 0..signals.input.len() {
        let network = network_word(flag, signals.network, t);
        let given = Given {
            audio: signals.input[t],
            network,
            settings: signals.settings,
        };
        output[t] = sample::sample(graph, &given, values, memories);
    }
}
