// The graph run: the preview engine, which evaluates a block's nodes sample by sample (document 01, module 6).
#![tactic(auto)]

mod plan;
mod sample;
mod samples;

ghost use Rattle.std.specs.Prelude.{◌≡◌};
ghost use Rattle.answers.specs.Numbers.{accepted, answer_of};
ghost use Rattle.block.specs.Block.{the_block};
ghost use Rattle.memory.specs.Lent.{the_memories, the_signals, KeepsTables};
ghost use Rattle.memory.specs.Signals.{rendered};
ghost use Rattle.graph_run.specs.Run.{tables, outcome, run_answer, run_after, run_call};

use answers::Refusal;
use block::{Block, kinds};
use memory::lines::Memories;
use memory::signals::Signals;

// The answer of a call, from the lengths and words of its tables.
fn judge(
    block: &Block<'_>,
    signals: &Signals<'_>,
    expansion: &[u32],
    values: &[u32],
    memories: &Memories<'_>,
    output: &[u32],
) -> Result<(), Refusal>
    ensures { answer_of result ≡ run_answer (the_block block.now) (the_signals signals.now) (tables expansion.now values.now (rendered output.now (the_memories memories.now))) }
{
    block.validate()?;
    let length = kinds::expanded_length(block.nodes);
    if expansion.len() < 3 * length || values.len() < length {
        return Err(Refusal::TableTooShort);
    }
    if !memories.fit_run(block, signals, output) {
        return Err(Refusal::SizesDiffer);
    }
    Ok(())
}

// The expansion and the samples of a call that is accepted. The values table holds the map of nodes until the samples begin, and ends as zeros.
fn render(
    block: &Block<'_>,
    signals: &Signals<'_>,
    expansion: &mut [u32],
    values: &mut [u32],
    memories: &mut Memories<'_>,
    output: &mut [u32],
)
    requires { run_answer (the_block block.now) (the_signals signals.now) (tables expansion.old values.old (rendered output.old (the_memories memories.old))) ≡ accepted tt }
    ensures rendered { tables expansion.new values.new (rendered output.new (the_memories memories.new)) ≡ run_after (accepted tt) (the_block block.now) (the_signals signals.now) (tables expansion.old values.old (rendered output.old (the_memories memories.old))) }
    ensures same_tables { KeepsTables memories.old memories.new }
{
    let count = kinds::expanded_length(block.nodes);
    // It does not refuse: the table has room, as `judge` found.
    let _ = expand::valid::expand(block, expansion);
    expand::map_nodes(block.nodes, values);
    plan::play(block, expansion, count, signals, values, memories, output);
    values.fill(0);
}

// The graph run of a block over the samples of the input: an answer, the expanded nodes, zeros in the values table, and the memories after the last sample.
// The lent tables stay apart, as C lends them: each call below is lent another part of them.
pub fn run(
    block: &Block<'_>,
    signals: &Signals<'_>,
    expansion: &mut [u32],
    values: &mut [u32],
    memories: &mut Memories<'_>,
    output: &mut [u32],
) -> Result<(), Refusal>
    ensures outcome { outcome (answer_of result) (tables expansion.new values.new (rendered output.new (the_memories memories.new))) ≡ run_call (the_block block.now) (the_signals signals.now) (tables expansion.old values.old (rendered output.old (the_memories memories.old))) }
    ensures same_tables { KeepsTables memories.old memories.new }
{
    judge(block, signals, expansion, values, memories, output)?;
    render(block, signals, expansion, values, memories, output);
    Ok(())
}
