// What is hoisted into the control phase, and what each phase reaches (codegen.rs, the first half of `compile_with`).
ghost use Rattle.std.specs.Prelude.{◌≡◌, Bool, List, [], ◌∷◌, ◌++◌, ◌+◌, ◌*◌, ◌≤◌, ◌<◌, length, get_or};
ghost use Rattle.block.specs.Block.{code, first, second};
ghost use Rattle.plan.specs.Nodes.{updates_of};
ghost use Rattle.plan.specs.Hoist as Hoist;
ghost use Rattle.plan.specs.Layout.{IsLent, Updates, needed_at};
ghost use Rattle.plan.specs.Regions.{written, flags, Region};
ghost use Rattle.plan.specs.Words.{nodes_to, operand_count, operands_in, invariant_word, hoistable_in, marked, descends_in, goes_down, swept_node};

use crate::{Flow, Sizes};

// "from constants and parameters alone": of one node, by the flags of its operands. A word, which `invariance` stores.
#[tactic(auto, unfolding(crate::specs::Words::invariant_word))]
fn invariant_word(flow: &Flow<'_>, work: &[u32], i: usize) -> u32
    requires { IsLent flow.now work.now × (i < flow.now.sizes.nodes) }
    ensures { result ≡ invariant_word (operand_count flow.now.nodes.now i) (code flow.now.nodes.now i) (get_or work.now (first flow.now.nodes.now i) 0) (get_or work.now (second flow.now.nodes.now i) 0) }
{
    let count = flow.operand_count(i);
    if count == 0 {
        // By the codes of a constant and of a parameter, as the definition `invariant_word` has them.
        return match flow.code(i) {
            1 | 2 => 1,
            _ => 0,
        };
    }
    let lhs = work[flow.first(i)];
    if count == 1 || lhs == 0 {
        return lhs;
    }
    work[flow.second(i)]
}

// Of all nodes.
pub fn invariance(flow: &Flow<'_>, work: &mut [u32])
    requires { IsLent flow.now work.old }
    ensures { work.new ≡ written 0 (flags (Hoist.invariants (nodes_to flow.now.nodes.now flow.now.sizes.nodes) [])) work.old }
{
    for i in 0..flow.sizes.nodes {
        work[i] = invariant_word(flow, work, i);
    }
}

// Invariant, and computed.
#[tactic(auto, unfolding(crate::specs::Words::hoistable_in, crate::specs::Words::computed_in))]
pub fn is_hoistable(flow: &Flow<'_>, work: &[u32], i: usize) -> bool
    requires { IsLent flow.now work.now × (i < flow.now.sizes.nodes) }
    ensures { result ≡ hoistable_in flow.now.nodes.now work.now i }
{
    work[i] == 1 && 0 < flow.operand_count(i)
}

// The operands of a node are marked in the region that begins at `base`.
#[tactic(auto, unfolding(crate::specs::Words::operands_in))]
fn mark_operands(flow: &Flow<'_>, work: &mut [u32], base: usize, i: usize)
    requires { IsLent flow.now work.old × (i < flow.now.sizes.nodes) × (base ≤ 3 * flow.now.sizes.nodes) }
    ensures { work.new ≡ marked base (operands_in flow.now.nodes.now i) work.old }
{
    let count = flow.operand_count(i);
    if count > 0 {
        work[base + flow.first(i)] = 1;
    }
    if count > 1 {
        work[base + flow.second(i)] = 1;
    }
}

// Does the walk go down through a node: through every one, or not through what is hoistable. A flag, and no closure: `sweep` promises `goes_down through`.
#[tactic(auto, unfolding(crate::specs::Words::descends_in))]
fn descends(flow: &Flow<'_>, work: &[u32], through: bool, i: usize) -> bool
    requires { IsLent flow.now work.now × (i < flow.now.sizes.nodes) }
    ensures { result ≡ descends_in through flow.now.nodes.now work.now i }
{
    through || !is_hoistable(flow, work, i)
}

// A marked node through which the walk goes down marks its operands.
#[tactic(auto, unfolding(crate::specs::Words::swept_node))]
fn sweep_node(flow: &Flow<'_>, work: &mut [u32], base: usize, through: bool, i: usize)
    requires { IsLent flow.now work.old × (i < flow.now.sizes.nodes) × (base ≤ 3 * flow.now.sizes.nodes) }
    ensures { work.new ≡ swept_node base through flow.now.nodes.now i work.old }
{
    if work[base + i] != 0 && descends(flow, work, through, i) {
        mark_operands(flow, work, base, i);
    }
}

// Operands stand before their node, so one sweep from the last node to the first reaches all (codegen.rs, `reachable`).
pub fn sweep(flow: &Flow<'_>, work: &mut [u32], base: usize, through: bool)
    requires { IsLent flow.now work.old × (flow.now.sizes.nodes ≤ base) × (base ≤ 3 * flow.now.sizes.nodes) }
    ensures { (marks invariant : List Bool) → length marks ≡ flow.now.sizes.nodes → length invariant ≡ flow.now.sizes.nodes → Region base (flags marks) work.old → Region 0 (flags invariant) work.old → work.new ≡ written base (flags (Hoist.sweep (nodes_to flow.now.nodes.now flow.now.sizes.nodes) (goes_down through (nodes_to flow.now.nodes.now flow.now.sizes.nodes) invariant) flow.now.sizes.nodes marks)) work.old }
{
    for i in (0..flow.sizes.nodes).rev() {
        sweep_node(flow, work, base, through, i);
    }
}

// One update's node is marked, if there is one.
fn mark_update(update: u32, work: &mut [u32], base: usize)
    requires { base + update ≤ length work.old }
    ensures { work.new ≡ marked base (updates_of (update ∷ [])) work.old }
{
    if let Some(node) = update.checked_sub(1) {
        work[base + node as usize] = 1;
    }
}

// The nodes that a table of updates names are marked.
fn mark_updates(updates: &[u32], work: &mut [u32], sizes: Sizes)
    requires { Updates sizes updates.now × (needed_at sizes + sizes.nodes ≤ length work.old) }
    ensures { work.new ≡ marked (needed_at sizes) (updates_of updates.now) work.old }
{
    for &update in updates {
        mark_update(update, work, sizes.needed());
    }
}

// The output and every update are marked as needed (graph.rs, `Block::roots`).
pub fn mark_roots(flow: &Flow<'_>, work: &mut [u32])
    requires { Updates flow.now.sizes flow.now.updates.now × Updates flow.now.sizes flow.now.stores.now × (flow.now.output < flow.now.sizes.nodes) × (2 * flow.now.sizes.nodes ≤ length work.old) }
    ensures { work.new ≡ marked flow.now.sizes.nodes (flow.now.output ∷ (updates_of flow.now.updates.now ++ updates_of flow.now.stores.now)) work.old }
{
    work[flow.sizes.needed() + flow.output] = 1;
    mark_updates(flow.updates, work, flow.sizes);
    mark_updates(flow.stores, work, flow.sizes);
}
