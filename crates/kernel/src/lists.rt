// Answer 15: which step lists may run.
ghost use Rattle.std.specs.Prelude.{◌≡◌, ℕ, ◌+◌, ◌*◌, ◌≤◌, ◌<◌, length};
ghost use Rattle.tables.specs.Loops.{every};
ghost use Rattle.kernel.specs.Steps.{source_in_control, in_control, allowed_in};
ghost use Rattle.kernel.specs.Instructions.{instruction_at};
ghost use Rattle.kernel.specs.Lists.{sizes, source_inside, index_inside, is_formed, computes_formed, step_may_run, may_run, phase_may_run, list_may_run, Declared};

use crate::{Code, Instruction, Kernel, Phase, Sizes, Source, Step};

fn source_in_control(source: Source) -> bool
    ensures { result ≡ source_in_control source }
{
    matches!(source, Source::Parameter { .. } | Source::Control { .. })
}

fn in_control(step: Step) -> bool
    ensures { result ≡ in_control step }
{
    match step {
        Step::Load { source, .. } => source_in_control(source),
        Step::Compute { .. } | Step::StoreControl { .. } => true,
        _ => false,
    }
}

fn allowed_in(phase: Phase, step: Step) -> bool
    ensures { result ≡ allowed_in phase step }
{
    match phase {
        Phase::Control => in_control(step),
        Phase::Sample => !matches!(step, Step::StoreControl { .. }),
    }
}

fn instruction_formed(instructions: &[u32], instruction: u32) -> bool
    requires { 2 * instruction + 1 < length instructions.now }
    ensures { result ≡ is_formed (instruction_at instructions.now instruction) }
{
    let at = 2 * (instruction as usize);
    Instruction::from_words(instructions[at], instructions[at + 1]).is_some()
}

fn computes_formed(instructions: &[u32], step: Step) -> bool
    requires { (i : ℕ) → step ≡ Step.Compute i → 2 * i + 1 < length instructions.now }
    ensures { result ≡ computes_formed instructions.now step }
{
    match step {
        Step::Compute { instruction } => instruction_formed(instructions, instruction),
        _ => true,
    }
}

impl Sizes {
    // What a kernel's steps index in a block with so many parameters, states and delays.
    pub fn new(parameters: usize, states: usize, delays: usize, kernel: Kernel) -> Sizes
        ensures { result ≡ sizes parameters states delays kernel }
    {
        Sizes {
            parameters,
            states,
            delays,
            instructions: kernel.instructions,
            control_slots: kernel.slots,
            spill_slots: kernel.spills,
        }
    }

    fn source_inside(&self, source: Source) -> bool
        ensures { result ≡ source_inside self.now source }
    {
        match source {
            Source::Audio | Source::Network => true,
            Source::Parameter { index } => (index as usize) < self.parameters,
            Source::State { index } => (index as usize) < self.states,
            Source::Delay { index } => (index as usize) < self.delays,
            Source::Control { slot } => slot < self.control_slots,
        }
    }

    fn index_inside(&self, step: Step) -> bool
        ensures { result ≡ index_inside self.now step }
    {
        match step {
            Step::Load { source, .. } => self.source_inside(source),
            Step::Compute { instruction } => instruction < self.instructions,
            Step::Spill { slot, .. } | Step::Reload { slot, .. } => slot < self.spill_slots,
            Step::StoreState { state, .. } => (state as usize) < self.states,
            Step::StoreDelay { delay, .. } => (delay as usize) < self.delays,
            Step::StoreOutput { .. } => true,
            Step::StoreControl { slot, .. } => slot < self.control_slots,
        }
    }

    // A step may run in a phase: the phase allows it, its index is inside, and what it computes is well formed.
    pub fn step_may_run(&self, instructions: &[u32], phase: Phase, step: Step) -> bool
        requires { 2 * self.now.instructions ≤ length instructions.now }
        ensures { result ≡ step_may_run self.now instructions.now phase step }
    {
        allowed_in(phase, step) && self.index_inside(step) && computes_formed(instructions, step)
    }
}

impl Code<'_> {
    // Step i of the table may run in a phase.
    #[tactic(auto, unfolding(crate::specs::Lists::may_run))]
    pub fn may_run(&self, sizes: &Sizes, phase: Phase, i: usize) -> bool
        requires { (2 * i + 1 < length self.now.steps.now) × (2 * sizes.now.instructions ≤ length self.now.instructions.now) }
        ensures { result ≡ may_run sizes.now self.now.steps.now self.now.instructions.now phase i }
    {
        let at = 2 * i;
        match Step::from_words(self.steps[at], self.steps[at + 1]) {
            Some(step) => sizes.step_may_run(self.instructions, phase, step),
            None => false,
        }
    }

    // Every step of a phase may run: count steps of the table, from first on.
    fn phase_may_run(&self, sizes: &Sizes, phase: Phase, first: usize, count: usize) -> bool
        requires { (2 * (first + count) ≤ length self.now.steps.now) × (2 * sizes.now.instructions ≤ length self.now.instructions.now) }
        ensures { result ≡ every (phase_may_run sizes.now self.now.steps.now self.now.instructions.now phase first) count }
    {
        (0..count).all(|i| self.may_run(sizes, phase, first + i))
    }

    // The whole list may run in a block with so many parameters, states and delays. Where it may not, the step run answers 15.
    pub fn list_may_run(&self, parameters: usize, states: usize, delays: usize) -> bool
        requires { Declared self.now.steps.now self.now.instructions.now self.now.kernel }
        ensures { result ≡ list_may_run (sizes parameters states delays self.now.kernel) self.now.steps.now self.now.instructions.now self.now.kernel }
    {
        let sizes = Sizes::new(parameters, states, delays, self.kernel);
        let control = self.kernel.control as usize;
        let sample = self.kernel.sample as usize;
        sample != 0
            && self.phase_may_run(&sizes, Phase::Control, 0, control)
            && self.phase_may_run(&sizes, Phase::Sample, control, sample)
    }
}
