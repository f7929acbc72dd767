// Steps, instructions and kernels, and the words that tables hold of them (document 01, "What crosses the boundary").
#![tactic(auto)]

pub mod instructions;
pub mod lists;
pub mod steps;

// Where a load reads.
#[derive(Clone, Copy, Debug, PartialEq, Eq)]
pub enum Source {
    Audio,
    Network,
    Parameter { index: u32 },
    State { index: u32 },
    Delay { index: u32 },
    Control { slot: u32 },
}

// One action of a phase.
#[derive(Clone, Copy, Debug, PartialEq, Eq)]
pub enum Step {
    Load { source: Source, register: u32 },
    Compute { instruction: u32 },
    Spill { slot: u32, register: u32 },
    Reload { slot: u32, register: u32 },
    StoreState { state: u32, register: u32 },
    StoreDelay { delay: u32, register: u32 },
    StoreOutput { register: u32 },
    StoreControl { slot: u32, register: u32 },
}

// One scalar operation on the sixteen registers.
#[derive(Clone, Copy, Debug, PartialEq, Eq)]
pub enum Instruction {
    Immediate { dst: u32, value: u32 },
    Add { dst: u32, lhs: u32, rhs: u32 },
    Sub { dst: u32, lhs: u32, rhs: u32 },
    Mul { dst: u32, lhs: u32, rhs: u32 },
    Min { dst: u32, lhs: u32, rhs: u32 },
    Max { dst: u32, lhs: u32, rhs: u32 },
    Neg { dst: u32, src: u32 },
    Abs { dst: u32, src: u32 },
    IntegerSub { dst: u32, lhs: u32, rhs: u32 },
}

// Control steps run once per call, sample steps once per sample.
#[derive(Clone, Copy, Debug, PartialEq, Eq)]
pub enum Phase {
    Control,
    Sample,
}

// The five counts that come with a step table and an instruction table: control steps, sample steps, instructions, control slots, spill slots.
#[derive(Clone, Copy, Debug, PartialEq, Eq)]
pub struct Kernel {
    pub control: u32,
    pub sample: u32,
    pub instructions: u32,
    pub slots: u32,
    pub spills: u32,
}

// A kernel with its two tables, which the caller lends.
#[derive(Clone, Copy)]
pub struct Code<'a> {
    pub kernel: Kernel,
    pub steps: &'a [u32],
    pub instructions: &'a [u32],
}

// How many there are of what steps index: the block's tables and the kernel's declared counts.
#[derive(Clone, Copy, Debug, PartialEq, Eq)]
pub struct Sizes {
    pub parameters: usize,
    pub states: usize,
    pub delays: usize,
    pub instructions: u32,
    pub control_slots: u32,
    pub spill_slots: u32,
}
