// The C functions of what a block does: set, reset and the runs. Each is a thin call of the crate that does the work.
ghost use Rattle.std.specs.Prelude.{◌≡◌};
ghost use Rattle.answers.specs.Numbers.{answer_of};
ghost use Rattle.block.specs.Block.{block, the_block};
ghost use Rattle.memory.specs.Lines.{memories};
ghost use Rattle.memory.specs.Calls.{set_call, reset_call};
ghost use Rattle.graph_run.specs.Run as Graph;
ghost use Rattle.memory.specs.Signals.{signals, rendered};
ghost use Rattle.step_run.specs.Run as Step;
ghost use Rattle.tables.specs.Zeros.{zeros, copied};
ghost use Rattle.capi.specs.Crossing.{crossing, header};
ghost use Rattle.capi.specs.Runs.{crossed, set_crossing, reset_crossing, graph_crossing, counted, short_registers, step_call};

use crate::crosses::cross;
use answers::Refusal;
use block::{Block, Header};
use kernel::{Code, Kernel};
use machine::steps::Slots;
use memory::lines::Memories;
use memory::signals::Signals;

#[unsafe(no_mangle)]
pub extern "C" fn lichenstitch_set(
    version: u32,
    category: u32,
    channels: u32,
    network: u32,
    output: u32,
    parameters: &[u32],
    states: &[u32],
    delays: &[u32],
    nodes: &[u32],
    index: u32,
    value: u32,
    settings: &mut [u32],
    answer: &mut [u32],
) -> u32
    ensures { crossed (crossing result answer.new) settings.new
        ≡ set_crossing (set_call (block (header version category channels network output) parameters.now states.now delays.now nodes.now) settings.old index value) answer.old }
{
    let header = Header {
        version,
        category,
        channels,
        network,
        output,
    };
    let block = Block {
        header,
        parameters,
        states,
        delays,
        nodes,
    };
    let set = memory::set(&block, index, value, settings);
    cross(set, answer)
}

#[unsafe(no_mangle)]
pub extern "C" fn lichenstitch_reset(
    version: u32,
    category: u32,
    channels: u32,
    network: u32,
    output: u32,
    parameters: &[u32],
    states: &[u32],
    delays: &[u32],
    nodes: &[u32],
    held: &mut [u32],
    area: &mut [u32],
    cursors: &mut [u32],
    answer: &mut [u32],
) -> u32
    ensures { crossed (crossing result answer.new) (memories held.new area.new cursors.new)
        ≡ reset_crossing (reset_call (block (header version category channels network output) parameters.now states.now delays.now nodes.now) (memories held.old area.old cursors.old)) answer.old }
{
    let header = Header {
        version,
        category,
        channels,
        network,
        output,
    };
    let block = Block {
        header,
        parameters,
        states,
        delays,
        nodes,
    };
    let mut memories = Memories {
        held,
        area,
        cursors,
    };
    let reset = memory::reset(&block, &mut memories);
    cross(reset, answer)
}

#[unsafe(no_mangle)]
pub extern "C" fn lichenstitch_graph_run(
    version: u32,
    category: u32,
    channels: u32,
    flag: u32,
    last: u32,
    parameters: &[u32],
    states: &[u32],
    delays: &[u32],
    nodes: &[u32],
    settings: &[u32],
    input: &[u32],
    network: &[u32],
    expansion: &mut [u32],
    values: &mut [u32],
    held: &mut [u32],
    area: &mut [u32],
    cursors: &mut [u32],
    output: &mut [u32],
    answer: &mut [u32],
) -> u32
    ensures { crossed (crossing result answer.new) (Graph.tables expansion.new values.new (rendered output.new (memories held.new area.new cursors.new)))
        ≡ graph_crossing (Graph.run_call (block (header version category channels flag last) parameters.now states.now delays.now nodes.now) (signals settings.now input.now network.now) (Graph.tables expansion.old values.old (rendered output.old (memories held.old area.old cursors.old)))) answer.old }
{
    let header = Header {
        version,
        category,
        channels,
        network: flag,
        output: last,
    };
    let block = Block {
        header,
        parameters,
        states,
        delays,
        nodes,
    };
    let signals = Signals {
        settings,
        input,
        network,
    };
    let mut memories = Memories {
        held,
        area,
        cursors,
    };
    let run = graph_run::run(&block, &signals, expansion, values, &mut memories, output);
    cross(run, answer)
}

// The first sixteen words of a table.
pub fn sixteen(table: &[u32]) -> [u32; 16]
    ensures { result ≡ copied table.now (zeros 16) }
{
    let mut words = [0u32; 16];
    tables::copy(table, &mut words);
    words
}

// The answer where the table for the registers has not sixteen words.
pub fn short_registers(block: &Block<'_>) -> Result<(), Refusal>
    ensures { answer_of result ≡ short_registers (the_block block.now) }
{
    block.validate()?;
    Err(Refusal::TableTooShort)
}

#[unsafe(no_mangle)]
pub extern "C" fn lichenstitch_step_run(
    version: u32,
    category: u32,
    channels: u32,
    flag: u32,
    last: u32,
    parameters: &[u32],
    states: &[u32],
    delays: &[u32],
    nodes: &[u32],
    controls: u32,
    samples: u32,
    computes: u32,
    slots: u32,
    depth: u32,
    steps: &[u32],
    instructions: &[u32],
    settings: &[u32],
    input: &[u32],
    network: &[u32],
    budget: u32,
    registers: &mut [u32],
    expansion: &mut [u32],
    control: &mut [u32],
    spills: &mut [u32],
    held: &mut [u32],
    area: &mut [u32],
    cursors: &mut [u32],
    output: &mut [u32],
    answer: &mut [u32],
) -> u32
    ensures { crossed (crossing result answer.new) (Step.tables expansion.new control.new spills.new (rendered output.new (memories held.new area.new cursors.new)) registers.new)
        ≡ step_call (block (header version category channels flag last) parameters.now states.now delays.now nodes.now) (Step.code_of (counted controls samples computes slots depth) steps.now instructions.now) budget (signals settings.now input.now network.now) (Step.tables expansion.old control.old spills.old (rendered output.old (memories held.old area.old cursors.old)) registers.old) answer.old }
{
    let header = Header {
        version,
        category,
        channels,
        network: flag,
        output: last,
    };
    let block = Block {
        header,
        parameters,
        states,
        delays,
        nodes,
    };
    if registers.len() < 16 {
        return cross(short_registers(&block), answer);
    }
    let kernel = Kernel {
        control: controls,
        sample: samples,
        instructions: computes,
        slots,
        spills: depth,
    };
    let code = Code {
        kernel,
        steps,
        instructions,
    };
    let signals = Signals {
        settings,
        input,
        network,
    };
    let mut lent_slots = Slots { control, spills };
    let mut memories = Memories {
        held,
        area,
        cursors,
    };
    let ran = step_run::run(
        &block,
        &code,
        &signals,
        sixteen(registers),
        budget,
        expansion,
        &mut lent_slots,
        &mut memories,
        output,
    );
    tables::copy(&ran.registers, registers);
    cross(ran.answer, answer)
}
