// The samples of a call: the control steps once, then the sample steps for each sample.
ghost use Rattle.std.specs.Prelude.{◌≡◌, [], ℕ, ◌+◌, ◌*◌};
ghost use Rattle.block.specs.Block.{the_block};
ghost use Rattle.memory.specs.Lent.{KeepsTables};
ghost use Rattle.machine.specs.Machine.{with_output};
ghost use Rattle.machine.specs.Tables.{the_machine, KeepsSlots, IsReady};
ghost use Rattle.step_run.specs.Run.{control_done, sample_done, running, emit, samples_to, run_for, tables_of};
ghost use Rattle.step_run.specs.Ready.{Heard, Sounding};
ghost use Rattle.step_run.specs.SampleLaws.{hushed};
ghost use Rattle.step_run.specs.Setup.{the_setup, setup_for, the_tables, begun, ControlListed, SamplesListed, IsPlayable};

use block::Block;
use block::limits::MOST_DELAYS;
use kernel::{Code, Phase};
use machine::steps::{self, Program, Slots};
use memory::lines::{self, Lines, Memories};
use memory::signals::{Given, Signals};

// "A sample with no output store writes 0x7fc00000."
const NO_OUTPUT: u32 = 0x7fc0_0000;

// What the samples of a call run with and never write: the program, the block's network flag and the signals.
#[derive(Clone, Copy)]
pub struct Setup<'a> {
    pub program: Program<'a>,
    pub flag: u32,
    pub signals: Signals<'a>,
}

// Sample t: its word is what the last output store leaves.
fn sample(
    registers: [u32; 16],
    t: usize,
    setup: &Setup<'_>,
    slots: &mut Slots<'_>,
    memories: &mut Memories<'_>,
    output: &mut [u32],
) -> [u32; 16]
    requires ready { IsReady setup.now.program slots.old memories.old }
    requires listed { SamplesListed setup.now memories.old }
    requires heard { Heard setup.now.flag t setup.now.signals.input.now setup.now.signals.network.now output.old }
    ensures done { (n : ℕ) → running (the_machine result slots.new memories.new 0 (n + setup.now.program.code.kernel.sample)) output.new ≡ hushed (emit (sample_done (the_setup setup.now) (the_machine registers slots.old memories.old 0 n) t) output.old t) }
    ensures same_slots { KeepsSlots slots.old slots.new }
    ensures same_tables { KeepsTables memories.old memories.new }
{
    let kernel = setup.program.code.kernel;
    let given = setup.signals.given(setup.flag, t);
    let mut word = NO_OUTPUT;
    let next = steps::run_steps(
        registers,
        kernel.control as usize,
        kernel.sample as usize,
        Phase::Sample,
        &given,
        &setup.program,
        slots,
        memories,
        &mut word,
    );
    output[t] = word;
    next
}

// The first samples of a call, one after the other.
fn samples(
    registers: [u32; 16],
    count: usize,
    setup: &Setup<'_>,
    slots: &mut Slots<'_>,
    memories: &mut Memories<'_>,
    output: &mut [u32],
) -> [u32; 16]
    requires ready { IsReady setup.now.program slots.old memories.old }
    requires listed { SamplesListed setup.now memories.old }
    requires sounding { Sounding setup.now.flag count setup.now.signals.input.now setup.now.signals.network.now output.old }
    ensures done { (n : ℕ) → running (the_machine result slots.new memories.new 0 (n + count * setup.now.program.code.kernel.sample)) output.new ≡ hushed (samples_to (the_setup setup.now) (running (the_machine registers slots.old memories.old 0 n) output.old) count) }
    ensures same_slots { KeepsSlots slots.old slots.new }
    ensures same_tables { KeepsTables memories.old memories.new }
{
    let mut r = registers;
    for t in 0..count {
        // first a variable: of a call's result that is laid in an array at once no proof is generated
        let next = sample(r, t, setup, slots, memories, output);
        r = next;
    }
    r
}

// "The step run clears registers, control and spill tables at entry"; "Control steps run once per call".
fn start(setup: &Setup<'_>, slots: &mut Slots<'_>, memories: &mut Memories<'_>) -> [u32; 16]
    requires ready { IsReady setup.now.program slots.old memories.old }
    requires listed { ControlListed setup.now memories.old }
    ensures done { the_machine result slots.new memories.new 0 setup.now.program.code.kernel.control ≡ with_output (control_done (the_setup setup.now) (begun slots.old memories.old)) 0 }
    ensures same_slots { KeepsSlots slots.old slots.new }
    ensures same_tables { KeepsTables memories.old memories.new }
{
    slots.control.fill(0);
    slots.spills.fill(0);
    let kernel = setup.program.code.kernel;
    let given = Given {
        audio: 0,
        network: 0,
        settings: setup.signals.settings,
    };
    let mut word = NO_OUTPUT;
    steps::run_steps(
        [0; 16],
        0,
        kernel.control as usize,
        Phase::Control,
        &given,
        &setup.program,
        slots,
        memories,
        &mut word,
    )
}

// The run of so many samples: the control steps, then the samples. The count and the output are this call's alone and stand beside the structs.
pub fn play<'a>(
    count: usize,
    block: &Block<'a>,
    code: &Code<'a>,
    signals: &Signals<'a>,
    slots: &mut Slots<'_>,
    memories: &mut Memories<'_>,
    output: &mut [u32],
) -> [u32; 16]
    requires { IsPlayable count block.now code.now signals.now slots.old memories.old output.old }
    ensures done { the_tables [] slots.new memories.new output.new result ≡ tables_of [] (run_for (setup_for block.now code.now signals.now) (the_tables [] slots.old memories.old output.old []) count) }
    ensures same_slots { KeepsSlots slots.old slots.new }
    ensures same_tables { KeepsTables memories.old memories.new }
{
    let delays = block.delays;
    let mut bases = [0; MOST_DELAYS];
    lines::fill_bases(delays, &mut bases);
    let lines = Lines {
        delays,
        bases: &bases,
    };
    let setup = Setup {
        program: Program { code: *code, lines },
        flag: block.header.network,
        signals: *signals,
    };
    let registers = start(&setup, slots, memories);
    samples(registers, count, &setup, slots, memories, output)
}
