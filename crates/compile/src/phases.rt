// Both phases of an expanded block over one work table (codegen.rs, `compile_with`): each is planned, its tasks are linked, and its registers are allocated.
ghost use Rattle.std.specs.Prelude.{◌≡◌, length, IfOk, IfErr};
ghost use Rattle.answers.specs.declared.Refusal.TheVariants.{RegistersLocked};
ghost use Rattle.plan.specs.ControlShare.{the_flow};
ghost use Rattle.allocate.specs.State.{all_locked};
ghost use Rattle.compile.specs.Draft.{compile_flow};
ghost use Rattle.compile.specs.PhaseTables.{frame_in, new_allocator};
ghost use Rattle.compile.specs.Expanded.{flow_compiled, PhasesLeave, step_end, instruction_end, Cleared};
ghost use Rattle.compile.specs.Phases.{IsLent, IsBegun, ControlDone, ControlLeft, SampleDone, Ends, counted_of};

use crate::Compiled;
use allocate::{Allocator, Desk, Frame, phase};
use answers::Refusal;
use kernel::Kernel;
use plan::{Flow, Sizes, sources};

// What stays the same in a phase.
fn frame_in(sizes: Sizes, mask: u32, fixed: u32, control: bool) -> Frame
    ensures { result ≡ frame_in sizes mask fixed control }
{
    Frame {
        nodes: sizes.nodes,
        states: sizes.states,
        delays: sizes.delays,
        mask,
        fixed,
        control,
    }
}

// No register is held when a phase begins; its steps and instructions come behind those that are there.
fn new_allocator(slots: u32, steps: usize, instructions: usize) -> Allocator
    ensures { result ≡ new_allocator slots steps instructions }
{
    Allocator {
        owner: [0; 16],
        slots,
        freed: 0,
        steps,
        instructions,
        most: 0,
    }
}

// The control phase: what is hoisted, the first nodes of its sources, the links of its tasks and its steps.
fn control_phase(
    flow: &Flow<'_>,
    work: &mut [u32],
    steps: &mut [u32],
    instructions: &mut [u32],
    mask: u32,
) -> Result<Allocator, Refusal>
    requires { IsBegun flow.now work.old steps.old instructions.old }
    ensures done { IfOk result (ControlDone flow.now.sizes (the_flow flow.now) mask steps.old instructions.old work.new steps.new instructions.new) }
    ensures locked { IfErr result (λ refusal. (refusal ≡ RegistersLocked) × (compile_flow (the_flow flow.now) mask ≡ all_locked)) }
{
    let hoisted = plan::plan_control(flow, work);
    sources::canonical(flow, work, true);
    let frame = frame_in(flow.sizes, mask, hoisted.slots, true);
    phase::link(flow, work, frame, hoisted.tasks);
    let mut desk = Desk {
        work,
        steps,
        instructions,
        allocator: new_allocator(hoisted.slots, 0, 0),
    };
    desk.allocate_phase(flow, frame, hoisted.tasks)?;
    Ok(desk.allocator)
}

// The sample phase, once the control phase is done: what that left behind the plan of both is zeroed first.
fn sample_phase(
    flow: &Flow<'_>,
    work: &mut [u32],
    steps: &mut [u32],
    instructions: &mut [u32],
    mask: u32,
    before: Allocator,
) -> Result<Allocator, Refusal>
    requires { IsLent flow.now (length work.old) (length steps.old) (length instructions.old) × ControlLeft flow.now.sizes (the_flow flow.now) mask work.old steps.old instructions.old before }
    ensures done { IfOk result (SampleDone flow.now.sizes (the_flow flow.now) mask work.old steps.old instructions.old before steps.new instructions.new) }
    ensures locked { IfErr result (λ refusal. (refusal ≡ RegistersLocked) × (compile_flow (the_flow flow.now) mask ≡ all_locked)) }
{
    let from = 5 * flow.sizes.nodes;
    let to = work.len();
    tables::zero_part(work, from, to);
    let count = plan::plan_sample(flow, work);
    let frame = frame_in(flow.sizes, mask, 0, false);
    phase::link(flow, work, frame, count);
    let mut desk = Desk {
        work,
        steps,
        instructions,
        allocator: new_allocator(0, before.steps, before.instructions),
    };
    desk.allocate_phase(flow, frame, count)?;
    Ok(desk.allocator)
}

// The counts of a kernel, from the ends of its two phases.
#[tactic(auto, unfolding(crate::specs::Phases::counted_of))]
fn counted(before: Allocator, after: Allocator) -> Compiled
    requires { Ends before after }
    ensures { result ≡ counted_of before after }
{
    let kernel = Kernel {
        control: before.steps as u32,
        sample: (after.steps - before.steps) as u32,
        instructions: after.instructions as u32,
        slots: before.slots,
        spills: after.slots,
    };
    let registers = before.most.max(after.most);
    Compiled { kernel, registers }
}

// The control phase, then the sample phase.
pub fn phases(
    flow: &Flow<'_>,
    work: &mut [u32],
    steps: &mut [u32],
    instructions: &mut [u32],
    mask: u32,
) -> Result<Compiled, Refusal>
    requires { IsBegun flow.now work.old steps.old instructions.old }
    ensures { PhasesLeave (flow_compiled (the_flow flow.now) mask) steps.old instructions.old result steps.new instructions.new }
{
    let before = control_phase(flow, work, steps, instructions, mask)?;
    let after = sample_phase(flow, work, steps, instructions, mask, before)?;
    let made = counted(before, after);
    Ok(made)
}

// How many words a kernel's steps have; a refusal leaves none.
#[tactic(auto, unfolding(crate::specs::Expanded::step_end))]
fn step_words(compilation: Result<Compiled, Refusal>) -> usize
    ensures { result ≡ step_end compilation }
{
    match compilation {
        Ok(compiled) => 2 * (compiled.kernel.control as usize + compiled.kernel.sample as usize),
        Err(_) => 0,
    }
}

// How many words its instructions have.
#[tactic(auto, unfolding(crate::specs::Expanded::instruction_end))]
fn instruction_words(compilation: Result<Compiled, Refusal>) -> usize
    ensures { result ≡ instruction_end compilation }
{
    match compilation {
        Ok(compiled) => 2 * compiled.kernel.instructions as usize,
        Err(_) => 0,
    }
}

// Zeros behind the last step and instruction, and in the whole work table.
pub fn clear(
    compilation: Result<Compiled, Refusal>,
    steps: &mut [u32],
    instructions: &mut [u32],
    work: &mut [u32],
)
    ensures { Cleared compilation steps.old instructions.old work.old steps.new instructions.new work.new }
{
    let from = step_words(compilation);
    let to = steps.len();
    tables::zero_part(steps, from, to);
    let start = instruction_words(compilation);
    let end = instructions.len();
    tables::zero_part(instructions, start, end);
    tables::zero(work);
}
