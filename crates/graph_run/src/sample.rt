// One sample: every node's value in order, then every update from these values. The bounds are known from the contracts, so nothing is tested here.
ghost use Rattle.std.specs.Prelude.{◌≡◌, ◌<◌, length};
ghost use Rattle.expand.specs.Good.{GoodNode};
ghost use Rattle.memory.specs.Lent.{the_lengths, the_memories, the_given, LinesFit, KeepsTables};
ghost use Rattle.graph_run.specs.Sample.{value_of, values_to, update_state, update_states, update_delay, update_delays, sampled, sample};
ghost use Rattle.graph_run.specs.Ready.{the_counts, the_graph, Nodes, Updates, Ready};

use memory::lines::{Lines, Memories};
use memory::signals::Given;

// An expanded block as a sample reads it: its nodes, three words each, its output's node, the update of each state and the store of each delay, 0 for none and else
// a node's number and one, and its delay lines.
#[derive(Clone, Copy)]
pub struct Graph<'a, 'b> {
    pub nodes: &'a [u32],
    pub output: usize,
    pub updates: &'a [u32],
    pub stores: &'a [u32],
    pub lines: Lines<'b>,
}

// A node's value by its code, from the values of the nodes before it. By the code's number, in one match, and each arm fetches its own operands, where
// `words::operate` is handed both: this is asked for every node of every sample. By the kind, with both operands fetched first, the graph run of 88 and of 4,302
// nodes took 1.4 to 1.5 of the Rust's time on a busy machine, by number and with own operands 1.33, and in one match 1.13 to 1.16 (bench/run); at most 1.2 is wanted.
#[tactic(auto, unfolding(crate::specs::Sample::value_of, block::specs::Kinds::kind_of, words::specs::Operations::operate))]
fn value_of(
    code: u32,
    first: u32,
    second: u32,
    values: &[u32],
    given: &Given<'_>,
    lines: &Lines<'_>,
    memories: &Memories<'_>,
) -> u32
    requires fit { LinesFit lines.now memories.now }
    requires good { GoodNode (the_counts given.now memories.now) (length values.now) code first second }
    ensures { result ≡ value_of (the_lengths lines.now) (the_given given.now) (the_memories memories.now) values.now code first second }
{
    let i = first as usize;
    let j = second as usize;
    match code {
        0 => given.audio,
        1 => first,
        2 => given.settings[i],
        3 => memories.held[i],
        4 => memories.read_delay(lines, i),
        5 => words::add(values[i], values[j]),
        6 => words::sub(values[i], values[j]),
        7 => words::mul(values[i], values[j]),
        8 => words::min(values[i], values[j]),
        9 => words::max(values[i], values[j]),
        10 => words::integer_sub(values[i], values[j]),
        12 => words::neg(values[i]),
        13 => words::abs(values[i]),
        17 => given.network,
        _ => 0,
    }
}

// Every node's value, in node order.
fn fill_values(
    graph: &Graph<'_, '_>,
    given: &Given<'_>,
    memories: &Memories<'_>,
    values: &mut [u32],
)
    requires fit { LinesFit graph.now.lines memories.now }
    requires nodes { Nodes (the_counts given.now memories.now) graph.now.nodes.now (length values.old) }
    ensures { values.new ≡ values_to graph.now.nodes.now (the_lengths graph.now.lines) (the_given given.now) (the_memories memories.now) (length values.old) }
{
    let nodes = graph.nodes;
    // By index: a node is three words, and its value reads the values before it.
    for k in 0..values.len() {
        let at = 3 * k;
        let v = value_of(
            nodes[at],
            nodes[at + 1],
            nodes[at + 2],
            &values[..k],
            given,
            &graph.lines,
            memories,
        );
        values[k] = v;
    }
}

// State i takes its update's value of this sample.
#[tactic(auto, unfolding(crate::specs::Sample::update_state))]
fn update_state(updates: &[u32], values: &[u32], held: &mut [u32], i: usize)
    requires updates { Updates updates.now (length values.now) (length held.old) }
    requires inside { i < length held.old }
    ensures { held.new ≡ update_state updates.now values.now held.old i }
{
    if let Some(node) = updates[i].checked_sub(1) {
        held[i] = values[node as usize];
    }
}

fn update_states(updates: &[u32], values: &[u32], held: &mut [u32])
    requires { Updates updates.now (length values.now) (length held.old) }
    ensures { held.new ≡ update_states updates.now values.now held.old (length updates.now) }
{
    for i in 0..updates.len() {
        update_state(updates, values, held, i);
    }
}

// Delay i stores its update's value of this sample; without an update its cursor stays, as in the Rust.
#[tactic(auto, unfolding(crate::specs::Sample::update_delay))]
fn update_delay(graph: &Graph<'_, '_>, values: &[u32], memories: &mut Memories<'_>, i: usize)
    requires fit { LinesFit graph.now.lines memories.old }
    requires stores { Updates graph.now.stores.now (length values.now) (length memories.old.cursors.now) }
    requires inside { i < length memories.old.cursors.now }
    ensures stored { the_memories memories.new ≡ update_delay graph.now.stores.now (the_lengths graph.now.lines) values.now (the_memories memories.old) i }
    ensures same_tables { KeepsTables memories.old memories.new }
{
    if let Some(node) = graph.stores[i].checked_sub(1) {
        memories.store_delay(&graph.lines, i, values[node as usize]);
    }
}

fn update_delays(graph: &Graph<'_, '_>, values: &[u32], memories: &mut Memories<'_>)
    requires fit { LinesFit graph.now.lines memories.old }
    requires stores { Updates graph.now.stores.now (length values.now) (length memories.old.cursors.now) }
    ensures stored { the_memories memories.new ≡ update_delays graph.now.stores.now (the_lengths graph.now.lines) values.now (the_memories memories.old) (length graph.now.stores.now) }
    ensures same_tables { KeepsTables memories.old memories.new }
{
    for i in 0..graph.stores.len() {
        update_delay(graph, values, memories, i);
    }
}

// One sample: its output word.
pub fn sample(
    graph: &Graph<'_, '_>,
    given: &Given<'_>,
    values: &mut [u32],
    memories: &mut Memories<'_>,
) -> u32
    requires { Ready (the_graph (length values.old) graph.now) (length given.now.settings.now) (the_memories memories.old) }
    ensures sampled { sampled result (the_memories memories.new) ≡ sample (the_graph (length values.old) graph.now) (the_given given.now) (the_memories memories.old) }
    ensures same_tables { KeepsTables memories.old memories.new }
{
    fill_values(graph, given, memories, values);
    update_states(graph.updates, values, memories.held);
    update_delays(graph, values, memories);
    values[graph.output]
}
