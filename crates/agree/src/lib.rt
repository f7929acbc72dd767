// The checked run: a step list that the checker passes runs as the block's graph does (document 01, demand 3), so this is what a host calls with a list that it
// was sent. All tests of the checker's and the step run's call come first, then the check, then the run.
#![tactic(auto)]

ghost use Rattle.std.specs.Prelude.{◌≡◌, [], ◌≤◌, length, ltb};
ghost use Rattle.answers.specs.Numbers.{answer_of};
ghost use Rattle.block.specs.Block.{the_block};
ghost use Rattle.memory.specs.Lent.{the_signals, KeepsTables};
ghost use Rattle.machine.specs.Tables.{KeepsSlots};
ghost use Rattle.step_run.specs.Setup.{the_code};
ghost use Rattle.checker.specs.Check.{work_needed};
ghost use Rattle.agree.specs.Lent.{the_tables};
ghost use Rattle.agree.specs.Checked.{outcome, check_then_run};
ghost use Rattle.agree.specs.Ordered.{ordered_judged, ordered_run_call};

use answers::Refusal;
use block::{Block, Counts, kinds};
use kernel::{Code, Kernel};
use machine::steps::Slots;
use memory::lines::Memories;
use memory::signals::Signals;
use step_run::Ran;

// 13 for the checker's work table, which the step run is not lent.
fn short_work(kernel: Kernel, nodes: usize, counts: Counts, work: &[u32]) -> bool
    requires nodes { nodes ≤ 65537 }
    requires states { counts.states ≤ 4096 }
    requires delays { counts.delays ≤ 4096 }
    ensures { result ≡ ltb (length work.now) (work_needed nodes counts.states counts.delays kernel) }
{
    let slots = kernel.slots as usize;
    let spills = kernel.spills as usize;
    work.len() < 8 * nodes + 8 * (counts.states + counts.delays) + 320 + (slots + spills)
}

// The refusals of both calls that change nothing, from the lengths and words of their tables. What is lent stays apart: the check is lent the first two, the
// run all but `work`.
fn judge(
    block: &Block<'_>,
    code: &Code<'_>,
    signals: &Signals<'_>,
    expansion: &[u32],
    work: &[u32],
    slots: &Slots<'_>,
    memories: &Memories<'_>,
    output: &[u32],
) -> Result<(), Refusal>
    ensures { answer_of result ≡ ordered_judged (the_block block.now) (the_code code.now) (the_signals signals.now) (the_tables expansion.now work.now slots.now memories.now output.now []) }
{
    block.validate()?;
    let nodes = kinds::expanded_length(block.nodes);
    if short_work(code.kernel, nodes, block.counts(), work) {
        return Err(Refusal::TableTooShort);
    }
    step_run::judge(
        block,
        code,
        signals,
        expansion,
        slots.control,
        slots.spills,
        memories.held,
        memories.area,
        memories.cursors,
        output,
    )
}

// The check, and the run where it passes the list.
fn check_and_run(
    block: &Block<'_>,
    mask: u32,
    code: &Code<'_>,
    signals: &Signals<'_>,
    registers: [u32; 16],
    budget: u32,
    expansion: &mut [u32],
    work: &mut [u32],
    slots: &mut Slots<'_>,
    memories: &mut Memories<'_>,
    output: &mut [u32],
) -> Ran
    ensures done { outcome (answer_of result.answer) (the_tables expansion.new work.new slots.new memories.new output.new result.registers) ≡ check_then_run (the_block block.now) mask (the_code code.now) budget (the_signals signals.now) (the_tables expansion.old work.old slots.old memories.old output.old registers) }
    ensures same_slots { KeepsSlots slots.old slots.new }
    ensures same_tables { KeepsTables memories.old memories.new }
{
    let checked = checker::check(block, mask, code, expansion, work);
    if let Err(refusal) = checked {
        return Ran {
            answer: Err(refusal),
            registers,
        };
    }
    step_run::run(
        block, code, signals, registers, budget, expansion, slots, memories, output,
    )
}

// The step run of a list that the checker passes, and of no other: what it renders is what the block's graph renders. Of the tables the check is lent the first two,
// the run all but the work table, so they are in parts.
pub fn checked_run(
    block: &Block<'_>,
    mask: u32,
    code: &Code<'_>,
    signals: &Signals<'_>,
    registers: [u32; 16],
    budget: u32,
    expansion: &mut [u32],
    work: &mut [u32],
    slots: &mut Slots<'_>,
    memories: &mut Memories<'_>,
    output: &mut [u32],
) -> Ran
    ensures done { outcome (answer_of result.answer) (the_tables expansion.new work.new slots.new memories.new output.new result.registers) ≡ ordered_run_call (the_block block.now) mask (the_code code.now) budget (the_signals signals.now) (the_tables expansion.old work.old slots.old memories.old output.old registers) }
    ensures same_slots { KeepsSlots slots.old slots.new }
    ensures same_tables { KeepsTables memories.old memories.new }
{
    if let Err(refusal) = judge(
        block, code, signals, expansion, work, slots, memories, output,
    ) {
        return Ran {
            answer: Err(refusal),
            registers,
        };
    }
    check_and_run(
        block, mask, code, signals, registers, budget, expansion, work, slots, memories, output,
    )
}
