// Compile: from a block to a kernel's words (document 01, modules 3 and 4): a step table (control, then sample), an instruction table, five counts and the
// most registers held at once. Definitions and theorems are in specs/.
#![tactic(auto)]

mod phases;

ghost use Rattle.std.specs.Prelude.{◌≡◌, ◌≤◌};
ghost use Rattle.answers.specs.Numbers.{accepted, answer_of};
ghost use Rattle.block.specs.Block.{the_block};
ghost use Rattle.compile.specs.Call.{tables, outcome, shorter, compile_judged, compile_call};
ghost use Rattle.compile.specs.Expanded.{Mapped, mapped_flow, flow_compiled, PhasesLeave};

use answers::Refusal;
use block::{Block, kinds};
use expand::{map, valid};
use kernel::Kernel;
use plan::{Flow, Sizes};

// What an accepted call tells besides the tables: the five counts, and the most registers held at once over both phases.
#[derive(Clone, Copy)]
pub struct Compiled {
    pub kernel: Kernel,
    pub registers: u32,
}

// A table shorter than so many nodes and memories ask for, by the lengths of the four.
#[tactic(auto, unfolding(crate::specs::Call::shorter))]
fn shorter(
    nodes: usize,
    memories: usize,
    expansion: usize,
    steps: usize,
    instructions: usize,
    work: usize,
) -> bool
    requires { (nodes ≤ 65537) × (memories ≤ 8192) }
    ensures { result ≡ shorter nodes memories expansion steps instructions work }
{
    let most = 7 * nodes + 5 * (memories + 1);
    expansion < 3 * nodes
        || steps < 2 * most
        || instructions < 2 * most
        || work < 32 * nodes + 16 * memories + 320
}

// The refusals 1 to 13 of a call, from the lengths and words of its tables. The four lent tables stay four parameters: `tables` joins them in the clauses, and
// a struct of four `&mut` would add a literal to each caller and a clause to each function.
fn judge(
    block: &Block<'_>,
    expansion: &[u32],
    steps: &[u32],
    instructions: &[u32],
    work: &[u32],
) -> Result<(), Refusal>
    ensures { answer_of result ≡ compile_judged (the_block block.now) (tables expansion.now steps.now instructions.now work.now) }
{
    block.validate()?;
    let counts = block.counts();
    if shorter(
        kinds::expanded_length(block.nodes),
        counts.states + counts.delays,
        expansion.len(),
        steps.len(),
        instructions.len(),
        work.len(),
    ) {
        return Err(Refusal::TableTooShort);
    }
    Ok(())
}

// Both phases of a block that is expanded. The work table begins with the map of nodes. The count of expanded nodes is this call's alone, so it stands beside
// the block.
fn compile_expanded(
    block: &Block<'_>,
    count: usize,
    mask: u32,
    expansion: &[u32],
    steps: &mut [u32],
    instructions: &mut [u32],
    work: &mut [u32],
) -> Result<Compiled, Refusal>
    requires { Mapped count block.now.header.output block.now.states.now block.now.delays.now expansion.now steps.old instructions.old work.old }
    ensures { PhasesLeave (flow_compiled (mapped_flow count block.now.header.output block.now.states.now block.now.delays.now expansion.now work.old) mask) steps.old instructions.old result steps.new instructions.new }
{
    let updates = map::mapped_updates(block.states, work);
    let stores = map::mapped_updates(block.delays, work);
    let counts = block.counts();
    let sizes = Sizes {
        nodes: count,
        states: counts.states,
        delays: counts.delays,
    };
    let flow = Flow {
        nodes: &expansion[..3 * count],
        updates: &updates[..sizes.states],
        stores: &stores[..sizes.delays],
        output: work[block.header.output as usize] as usize,
        sizes,
    };
    tables::zero(work);
    phases::phases(&flow, work, steps, instructions, mask)
}

// A call that 1 to 13 do not refuse: the expansion, the kernel, and zeros in the work table and behind the last step and instruction; 14 leaves no step.
fn build(
    block: &Block<'_>,
    mask: u32,
    expansion: &mut [u32],
    steps: &mut [u32],
    instructions: &mut [u32],
    work: &mut [u32],
) -> Result<Compiled, Refusal>
    requires { compile_judged (the_block block.now) (tables expansion.old steps.old instructions.old work.old) ≡ accepted tt }
    ensures { outcome (answer_of result) (tables expansion.new steps.new instructions.new work.new) ≡ compile_call (the_block block.now) mask (tables expansion.old steps.old instructions.old work.old) }
{
    let count = kinds::expanded_length(block.nodes);
    valid::expand(block, expansion)?;
    expand::map_nodes(block.nodes, work);
    let compilation = compile_expanded(block, count, mask, expansion, steps, instructions, work);
    phases::clear(compilation, steps, instructions, work);
    compilation
}

// The kernel of a block for the registers of a mask: an answer, the expanded nodes, the words of its steps and instructions, and zeros in the work table.
pub fn compile(
    block: &Block<'_>,
    mask: u32,
    expansion: &mut [u32],
    steps: &mut [u32],
    instructions: &mut [u32],
    work: &mut [u32],
) -> Result<Compiled, Refusal>
    ensures { outcome (answer_of result) (tables expansion.new steps.new instructions.new work.new) ≡ compile_call (the_block block.now) mask (tables expansion.old steps.old instructions.old work.old) }
{
    judge(block, expansion, steps, instructions, work)?;
    build(block, mask, expansion, steps, instructions, work)
}
