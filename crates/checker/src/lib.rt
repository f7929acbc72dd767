// The step checker: which step lists compute what the block's graph does (document 01, "What the step checker passes", answer 19).
#![tactic(auto)]

mod mask;
mod moves;
mod table;
mod walk;

ghost use Rattle.std.specs.Prelude.{◌≡◌, ◌≤◌, length};
ghost use Rattle.answers.specs.Numbers.{accepted, answer_of};
ghost use Rattle.block.specs.Block.{the_block, parameter_count};
ghost use Rattle.checker.specs.Walk.{walk_answer};
ghost use Rattle.checker.specs.Check.{tables, outcome, shorter, check_judged, check_call};
ghost use Rattle.checker.specs.Plan.{planned_listing, Planned};

use answers::Refusal;
use block::{Block, Counts, kinds};
use expand::{map, valid};
use kernel::Code;
use table::Terms;

// A step list with what it is checked against: the terms, the expanded nodes and, of each state and each delay, the update. The terms have the counts of these
// slices beside them, since a store in the work table goes by the counts and is lent no slice (`table_after` of specs/Table.antt).
#[derive(Clone, Copy)]
struct Listing<'a> {
    pub terms: Terms,
    pub nodes: &'a [u32],
    pub updates: &'a [u32],
    pub stores: &'a [u32],
    pub steps: &'a [u32],
    pub instructions: &'a [u32],
}

// A table shorter than its declared count, or than so many nodes, states and delays ask for. Sums of declared counts need 64 bits.
#[tactic(auto, unfolding(crate::specs::Check::shorter))]
fn shorter(code: &Code<'_>, nodes: usize, counts: Counts, expansion: usize, work: usize) -> bool
    requires { (nodes ≤ 65537) × ((counts.states ≤ 4096) × (counts.delays ≤ 4096)) }
    ensures { result ≡ shorter code.now.kernel nodes counts.states counts.delays expansion (length code.now.steps.now) (length code.now.instructions.now) work }
{
    let kernel = code.kernel;
    let listed = kernel.control as usize + kernel.sample as usize;
    let slots = kernel.slots as usize + kernel.spills as usize;
    expansion < 3 * nodes
        || code.steps.len() < 2 * listed
        || code.instructions.len() < 2 * (kernel.instructions as usize)
        || work < 8 * nodes + 8 * (counts.states + counts.delays) + 320 + slots
}

// The refusals 1 to 13 of a call, from the lengths and words of its tables.
fn judge(block: &Block<'_>, code: &Code<'_>, expansion: &[u32], work: &[u32]) -> Result<(), Refusal>
    ensures { answer_of result ≡ check_judged (the_block block.now) code.now.kernel code.now.steps.now code.now.instructions.now (tables expansion.now work.now) }
{
    block.validate()?;
    let nodes = kinds::expanded_length(block.nodes);
    if shorter(code, nodes, block.counts(), expansion.len(), work.len()) {
        return Err(Refusal::TableTooShort);
    }
    Ok(())
}

// The walk over the list of a block that is expanded. The work table begins with the map of nodes.
fn walk_block(
    block: &Block<'_>,
    mask: u32,
    code: &Code<'_>,
    count: usize,
    expansion: &[u32],
    work: &mut [u32],
) -> Result<(), Refusal>
    requires { Planned count (parameter_count (the_block block.now)) expansion.now work.old block.now.header.output block.now.states.now block.now.delays.now mask code.now.kernel code.now.steps.now code.now.instructions.now }
    ensures { answer_of result ≡ walk_answer (planned_listing count (parameter_count (the_block block.now)) expansion.now work.old block.now.header.output block.now.states.now block.now.delays.now mask code.now.kernel code.now.steps.now code.now.instructions.now) }
{
    let updates = map::mapped_updates(block.states, &work[..]);
    let stores = map::mapped_updates(block.delays, &work[..]);
    let counts = block.counts();
    let terms = Terms {
        count,
        parameters: counts.parameters,
        states: counts.states,
        delays: counts.delays,
        output: work[block.header.output as usize],
        mask,
        kernel: code.kernel,
    };
    let list = Listing {
        terms,
        nodes: &expansion[..3 * count],
        updates: &updates[..terms.states],
        stores: &stores[..terms.delays],
        steps: code.steps,
        instructions: code.instructions,
    };
    walk::walk_list(&list, work)
}

// A call that 1 to 13 do not refuse: the expansion, the walk, and zeros in the work table whether the list passes or not.
fn review(
    block: &Block<'_>,
    mask: u32,
    code: &Code<'_>,
    expansion: &mut [u32],
    work: &mut [u32],
) -> Result<(), Refusal>
    requires { check_judged (the_block block.now) code.now.kernel code.now.steps.now code.now.instructions.now (tables expansion.old work.old) ≡ accepted tt }
    ensures { outcome (answer_of result) (tables expansion.new work.new) ≡ check_call (the_block block.now) mask code.now.kernel code.now.steps.now code.now.instructions.now (tables expansion.old work.old) }
{
    let count = kinds::expanded_length(block.nodes);
    valid::expand(block, expansion)?;
    expand::map_nodes(block.nodes, work);
    let verdict = walk_block(block, mask, code, count, expansion, work);
    tables::zero(work);
    verdict
}

// Whether a list of steps computes what a block's graph does: an answer, the expanded nodes, and zeros in the work table.
pub fn check(
    block: &Block<'_>,
    mask: u32,
    code: &Code<'_>,
    expansion: &mut [u32],
    work: &mut [u32],
) -> Result<(), Refusal>
    ensures { outcome (answer_of result) (tables expansion.new work.new) ≡ check_call (the_block block.now) mask code.now.kernel code.now.steps.now code.now.instructions.now (tables expansion.old work.old) }
{
    judge(block, code, expansion, work)?;
    review(block, mask, code, expansion, work)
}
