// One step, and the steps of a phase: host.rs, the loop of `run_lowered`.
ghost use Rattle.std.specs.Prelude.{◌≡◌, true, ℕ, ◌+◌, ◌<◌, length, get_or, set, take};
ghost use Rattle.kernel.specs.Steps.{step_of};
ghost use Rattle.kernel.specs.Lists.{source_inside};
ghost use Rattle.machine.specs.Machine.{loaded, act_words, steps_to};
ghost use Rattle.machine.specs.Ready.{Slotted, slot_table, slot_count, slot_stored};
ghost use Rattle.memory.specs.Lent.{the_given, the_lengths, the_memories, KeepsTables};
ghost use Rattle.machine.specs.Tables.{the_slots, the_program, the_machine, the_sizes, KeepsSlots, IsReady, MayRunHere, IsListed};

use crate::registers;
use kernel::{Code, Kernel, Phase, Source, Step};
use memory::lines::{Lines, Memories};
use memory::signals::Given;

// What a run reads and never writes: the kernel with its tables, and the delay lines.
#[derive(Clone, Copy)]
pub struct Program<'a> {
    pub code: Code<'a>,
    pub lines: Lines<'a>,
}

// The control and the spill table of a run.
#[derive(Drop)]
pub struct Slots<'a> {
    pub control: &'a mut [u32],
    pub spills: &'a mut [u32],
}

// The slots of the running phase: as many words of the control or of the spill table as the kernel declares.
fn phase_slots<'a>(control: &'a [u32], spills: &'a [u32], kernel: Kernel, phase: Phase) -> &'a [u32]
    requires { Slotted kernel control.now spills.now }
    ensures { result.now ≡ take (slot_count phase kernel) (slot_table phase control.now spills.now) }
{
    match phase {
        Phase::Control => &control[..kernel.slots as usize],
        Phase::Sample => &spills[..kernel.spills as usize],
    }
}

fn store(words: &mut [u32], at: usize, value: u32)
    requires { at < length words.old }
    ensures { words.new ≡ set words.old at value }
{
    words[at] = value;
}

impl Slots<'_> {
    fn read(&self, kernel: Kernel, phase: Phase, slot: u32) -> u32
        requires slotted { Slotted kernel self.now.control.now self.now.spills.now }
        requires inside { slot < slot_count phase kernel }
        ensures { result ≡ get_or (slot_table phase self.now.control.now self.now.spills.now) slot 0 }
    {
        phase_slots(self.control, self.spills, kernel, phase)[slot as usize]
    }

    // A store to a slot of the running phase: the part that holds it is lent on.
    fn store(&mut self, kernel: Kernel, phase: Phase, slot: u32, value: u32)
        requires slotted { Slotted kernel self.old.control.now self.old.spills.now }
        requires inside { slot < slot_count phase kernel }
        ensures done { the_slots self.new ≡ slot_stored phase self.old.control.now self.old.spills.now slot value }
        ensures same_slots { KeepsSlots self.old self.new }
    {
        let at = slot as usize;
        match phase {
            Phase::Control => {
                // from 0: of a loan of `..count` in a field no proof is generated
                let count = kernel.slots as usize;
                store(&mut self.control[0..count], at, value);
            }
            Phase::Sample => {
                let count = kernel.spills as usize;
                store(&mut self.spills[0..count], at, value);
            }
        }
    }
}

// What a load reads. That the tables hold what the kernel declares (`IsReady`) is a fact of three structs that are lent apart, so none of them can keep it.
fn loaded(
    source: Source,
    given: &Given<'_>,
    program: &Program<'_>,
    slots: &Slots<'_>,
    memories: &Memories<'_>,
) -> u32
    requires ready { IsReady program.now slots.now memories.now }
    requires inside { source_inside (the_sizes program.now given.now memories.now) source ≡ true }
    ensures { result ≡ loaded (the_lengths program.now.lines) (the_given given.now) slots.now.control.now (the_memories memories.now) source }
{
    match source {
        Source::Audio => given.audio,
        Source::Network => given.network,
        Source::Parameter { index } => given.settings[index as usize],
        Source::State { index } => memories.held[index as usize],
        Source::Delay { index } => memories.read_delay(&program.lines, index as usize),
        Source::Control { slot } => slots.control[slot as usize],
    }
}

// One step: the registers by value, the other tables lent on to where the step writes. The registers, the step's words and its phase change from step to step,
// and the structs beside them stay a run long, so that no further struct of them would last.
fn step(
    registers: [u32; 16],
    word: u32,
    index: u32,
    phase: Phase,
    given: &Given<'_>,
    program: &Program<'_>,
    slots: &mut Slots<'_>,
    memories: &mut Memories<'_>,
    out: &mut u32,
) -> [u32; 16]
    requires ready { IsReady program.now slots.old memories.old }
    requires may { MayRunHere program.now given.now memories.old phase (step_of word index) }
    ensures done { (n : ℕ) → the_machine result slots.new memories.new out.new (n + 1) ≡ act_words (the_program program.now) (the_given given.now) (the_machine registers slots.old memories.old out.old n) (step_of word index) }
    ensures same_slots { KeepsSlots slots.old slots.new }
    ensures same_tables { KeepsTables memories.old memories.new }
{
    let kernel = program.code.kernel;
    match Step::from_words_unchecked(word, index) {
        Step::Load { source, register } => {
            let value = loaded(source, given, program, slots, memories);
            registers::put(registers, register, value)
        }
        Step::Compute { instruction } => {
            registers::compute(registers, program.code.instructions, instruction)
        }
        Step::Spill { slot, register } | Step::StoreControl { slot, register } => {
            slots.store(kernel, phase, slot, registers::read(registers, register));
            registers
        }
        Step::Reload { slot, register } => {
            let value = slots.read(kernel, phase, slot);
            registers::put(registers, register, value)
        }
        Step::StoreState { state, register } => {
            memories.held[state as usize] = registers::read(registers, register);
            registers
        }
        Step::StoreDelay { delay, register } => {
            let value = registers::read(registers, register);
            memories.store_delay(&program.lines, delay as usize, value);
            registers
        }
        Step::StoreOutput { register } => {
            *out = registers::read(registers, register);
            registers
        }
    }
}

// The steps of a phase: count steps of the table, from first on.
pub fn run_steps(
    registers: [u32; 16],
    first: usize,
    count: usize,
    phase: Phase,
    given: &Given<'_>,
    program: &Program<'_>,
    slots: &mut Slots<'_>,
    memories: &mut Memories<'_>,
    out: &mut u32,
) -> [u32; 16]
    requires ready { IsReady program.now slots.old memories.old }
    requires listed { IsListed program.now given.now memories.old phase first count }
    ensures done { (n : ℕ) → the_machine result slots.new memories.new out.new (n + count) ≡ steps_to (the_program program.now) program.now.code.steps.now (the_given given.now) (the_machine registers slots.old memories.old out.old n) first count }
    ensures same_slots { KeepsSlots slots.old slots.new }
    ensures same_tables { KeepsTables memories.old memories.new }
{
    let steps = program.code.steps;
    let mut r = registers;
    for i in 0..count {
        let at = 2 * (first + i);
        // first a variable: of a call's result that is laid in an array at once no proof is generated
        let next = step(
            r,
            steps[at],
            steps[at + 1],
            phase,
            given,
            program,
            slots,
            memories,
            out,
        );
        r = next;
    }
    r
}
