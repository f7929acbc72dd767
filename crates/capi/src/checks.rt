// The C functions of the step checker and of the checked run: thin calls of the crates that do the work.
ghost use Rattle.std.specs.Prelude.{◌≡◌};
ghost use Rattle.block.specs.Block.{block};
ghost use Rattle.memory.specs.Lines.{memories};
ghost use Rattle.memory.specs.Signals.{signals, rendered};
ghost use Rattle.step_run.specs.Run.{code_of};
ghost use Rattle.checker.specs.Check as Check;
ghost use Rattle.agree.specs.Checked as Checked;
ghost use Rattle.capi.specs.Crossing.{crossing, header};
ghost use Rattle.capi.specs.Runs.{crossed, counted, check_crossing};
ghost use Rattle.capi.specs.CheckedRuns.{checked_call};

use crate::crosses::cross;
use crate::runs::{short_registers, sixteen};
use block::{Block, Header};
use kernel::{Code, Kernel};
use machine::steps::Slots;
use memory::lines::Memories;
use memory::signals::Signals;

#[unsafe(no_mangle)]
pub extern "C" fn lichenstitch_check(
    version: u32,
    category: u32,
    channels: u32,
    network: u32,
    output: u32,
    parameters: &[u32],
    states: &[u32],
    delays: &[u32],
    nodes: &[u32],
    mask: u32,
    controls: u32,
    samples: u32,
    computes: u32,
    slots: u32,
    spills: u32,
    steps: &[u32],
    instructions: &[u32],
    expansion: &mut [u32],
    work: &mut [u32],
    answer: &mut [u32],
) -> u32
    ensures { crossed (crossing result answer.new) (Check.tables expansion.new work.new)
        ≡ check_crossing (Check.check_call (block (header version category channels network output) parameters.now states.now delays.now nodes.now) mask (counted controls samples computes slots spills) steps.now instructions.now (Check.tables expansion.old work.old)) answer.old }
{
    let header = Header {
        version,
        category,
        channels,
        network,
        output,
    };
    let block = Block {
        header,
        parameters,
        states,
        delays,
        nodes,
    };
    let kernel = Kernel {
        control: controls,
        sample: samples,
        instructions: computes,
        slots,
        spills: spills,
    };
    let code = Code {
        kernel,
        steps,
        instructions,
    };
    let checked = checker::check(&block, mask, &code, expansion, work);
    cross(checked, answer)
}

#[unsafe(no_mangle)]
pub extern "C" fn lichenstitch_checked_run(
    version: u32,
    category: u32,
    channels: u32,
    flag: u32,
    last: u32,
    parameters: &[u32],
    states: &[u32],
    delays: &[u32],
    nodes: &[u32],
    mask: u32,
    controls: u32,
    samples: u32,
    computes: u32,
    slots: u32,
    depth: u32,
    steps: &[u32],
    instructions: &[u32],
    settings: &[u32],
    input: &[u32],
    network: &[u32],
    budget: u32,
    registers: &mut [u32],
    expansion: &mut [u32],
    work: &mut [u32],
    control: &mut [u32],
    spills: &mut [u32],
    held: &mut [u32],
    area: &mut [u32],
    cursors: &mut [u32],
    output: &mut [u32],
    answer: &mut [u32],
) -> u32
    ensures { crossed (crossing result answer.new) (Checked.tables expansion.new work.new control.new spills.new (rendered output.new (memories held.new area.new cursors.new)) registers.new)
        ≡ checked_call (block (header version category channels flag last) parameters.now states.now delays.now nodes.now) mask (code_of (counted controls samples computes slots depth) steps.now instructions.now) budget (signals settings.now input.now network.now) (Checked.tables expansion.old work.old control.old spills.old (rendered output.old (memories held.old area.old cursors.old)) registers.old) answer.old }
{
    let header = Header {
        version,
        category,
        channels,
        network: flag,
        output: last,
    };
    let block = Block {
        header,
        parameters,
        states,
        delays,
        nodes,
    };
    if registers.len() < 16 {
        return cross(short_registers(&block), answer);
    }
    let kernel = Kernel {
        control: controls,
        sample: samples,
        instructions: computes,
        slots,
        spills: depth,
    };
    let code = Code {
        kernel,
        steps,
        instructions,
    };
    let signals = Signals {
        settings,
        input,
        network,
    };
    let mut lent_slots = Slots { control, spills };
    let mut memories = Memories {
        held,
        area,
        cursors,
    };
    let ran = agree::checked_run(
        &block,
        mask,
        &code,
        &signals,
        sixteen(registers),
        budget,
        expansion,
        work,
        &mut lent_slots,
        &mut memories,
        output,
    );
    tables::copy(&ran.registers, registers);
    cross(ran.answer, answer)
}
