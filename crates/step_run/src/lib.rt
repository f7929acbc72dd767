// The step run: the engine of the unit, which executes a kernel's steps on sixteen registers (document 01, module 6).
#![tactic(auto)]

mod budget;
mod samples;

ghost use Rattle.std.specs.Prelude.{◌≡◌, [], ◌≤◌, length};
ghost use Rattle.answers.specs.Numbers.{accepted, answer_of};
ghost use Rattle.block.specs.Block.{the_block};
ghost use Rattle.memory.specs.Lines.{memories};
ghost use Rattle.memory.specs.Signals.{rendered};
ghost use Rattle.memory.specs.Lent.{the_signals, KeepsTables};
ghost use Rattle.machine.specs.Tables.{KeepsSlots};
ghost use Rattle.step_run.specs.Run.{tables, outcome, shorter, run_judged, run_call};
ghost use Rattle.step_run.specs.Setup.{the_code, the_tables};

use answers::Refusal;
use block::{Block, kinds};
use kernel::Code;
use machine::steps::Slots;
use memory::lines::Memories;
use memory::signals::Signals;
use memory::sizes;

// What an accepted call tells: how many samples it did and how many steps that took.
#[derive(Clone, Copy)]
pub struct Done {
    pub samples: u32,
    pub steps: u32,
}

// "The sixteen registers go in and come back as one array of words." No Result around it: they come back whatever the answer is.
#[derive(Clone, Copy)]
pub struct Ran {
    pub answer: Result<Done, Refusal>,
    pub registers: [u32; 16],
}

// A table shorter than its declared count, or the expansion than three words for each of so many nodes. Sums of declared counts need 64 bits.
#[tactic(auto, unfolding(crate::specs::Run::shorter))]
fn shorter(
    code: &Code<'_>,
    nodes: usize,
    expansion: &[u32],
    control: &[u32],
    spills: &[u32],
) -> bool
    requires { nodes ≤ 65537 }
    ensures { result ≡ shorter code.now.kernel nodes (length expansion.now) (length code.now.steps.now) (length code.now.instructions.now) (length control.now) (length spills.now) }
{
    let kernel = code.kernel;
    expansion.len() < 3 * nodes
        || code.steps.len() < 2 * (kernel.control as usize + kernel.sample as usize)
        || code.instructions.len() < 2 * (kernel.instructions as usize)
        || control.len() < kernel.slots as usize
        || spills.len() < kernel.spills as usize
}

// The refusals of a call, from the lengths and words of its tables: slices that are read, so that they can be asked for where no table may be written.
pub fn judge(
    block: &Block<'_>,
    code: &Code<'_>,
    signals: &Signals<'_>,
    expansion: &[u32],
    control: &[u32],
    spills: &[u32],
    held: &[u32],
    area: &[u32],
    cursors: &[u32],
    output: &[u32],
) -> Result<(), Refusal>
    ensures { answer_of result ≡ run_judged (the_block block.now) (the_code code.now) (the_signals signals.now) (tables expansion.now control.now spills.now (rendered output.now (memories held.now area.now cursors.now)) []) }
{
    block.validate()?;
    let count = kinds::expanded_length(block.nodes);
    if shorter(code, count, expansion, control, spills) {
        return Err(Refusal::TableTooShort);
    }
    if !code.list_may_run(
        block.parameters.len() / 3,
        block.states.len() / 2,
        block.delays.len() / 2,
    ) {
        return Err(Refusal::BadStepList);
    }
    if !sizes::run_fits(block, signals, held, area, cursors, output) {
        return Err(Refusal::SizesDiffer);
    }
    Ok(())
}

// The same of the tables as `run` is lent them.
fn judge_lent(
    block: &Block<'_>,
    code: &Code<'_>,
    signals: &Signals<'_>,
    expansion: &[u32],
    slots: &Slots<'_>,
    memories: &Memories<'_>,
    output: &[u32],
) -> Result<(), Refusal>
    ensures { answer_of result ≡ run_judged (the_block block.now) (the_code code.now) (the_signals signals.now) (the_tables expansion.now slots.now memories.now output.now []) }
{
    judge(
        block,
        code,
        signals,
        expansion,
        slots.control,
        slots.spills,
        memories.held,
        memories.area,
        memories.cursors,
        output,
    )
}

// A call that is accepted: the expansion, and as many samples as the budget has room for. With none only the expansion is written.
fn render(
    block: &Block<'_>,
    code: &Code<'_>,
    signals: &Signals<'_>,
    registers: [u32; 16],
    budget: u32,
    expansion: &mut [u32],
    slots: &mut Slots<'_>,
    memories: &mut Memories<'_>,
    output: &mut [u32],
) -> Ran
    requires { run_judged (the_block block.now) (the_code code.now) (the_signals signals.now) (the_tables expansion.old slots.old memories.old output.old []) ≡ accepted tt }
    ensures done { outcome (answer_of result.answer) (the_tables expansion.new slots.new memories.new output.new result.registers) ≡ run_call (the_block block.now) (the_code code.now) budget (the_signals signals.now) (the_tables expansion.old slots.old memories.old output.old registers) }
    ensures same_slots { KeepsSlots slots.old slots.new }
    ensures same_tables { KeepsTables memories.old memories.new }
{
    // it can refuse a short table alone, and `judge` has measured it
    let _ = expand::valid::expand(block, expansion);
    let count = budget::samples_done(code.kernel, budget, signals.input.len());
    if count == 0 {
        let none = Done {
            samples: 0,
            steps: 0,
        };
        return Ran {
            answer: Ok(none),
            registers,
        };
    }
    let done = budget::done(code.kernel, budget, count);
    let registers = samples::play(count, block, code, signals, slots, memories, output);
    Ran {
        answer: Ok(done),
        registers,
    }
}

// The step run of a block's kernel over the samples of `input`, as far as the budget of steps goes: an answer, the registers, the expanded nodes, the slots, the
// memories and the output after the last sample done. The tables come in four parts, since the graph run and the check are lent others of them.
#[tactic(auto, using(crate::specs::CallLaws::refused_call))]
pub fn run(
    block: &Block<'_>,
    code: &Code<'_>,
    signals: &Signals<'_>,
    registers: [u32; 16],
    budget: u32,
    expansion: &mut [u32],
    slots: &mut Slots<'_>,
    memories: &mut Memories<'_>,
    output: &mut [u32],
) -> Ran
    ensures done { outcome (answer_of result.answer) (the_tables expansion.new slots.new memories.new output.new result.registers) ≡ run_call (the_block block.now) (the_code code.now) budget (the_signals signals.now) (the_tables expansion.old slots.old memories.old output.old registers) }
    ensures same_slots { KeepsSlots slots.old slots.new }
    ensures same_tables { KeepsTables memories.old memories.new }
{
    if let Err(refusal) = judge_lent(block, code, signals, expansion, slots, memories, output) {
        return Ran {
            answer: Err(refusal),
            registers,
        };
    }
    render(
        block, code, signals, registers, budget, expansion, slots, memories, output,
    )
}
