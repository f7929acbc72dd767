// The control slots, and the tasks of the control phase (codegen.rs, `control_slot` and `control_ops`).
ghost use Rattle.std.specs.Prelude.{◌≡◌, Bool, cond, List, map, ℕ, ◌+◌, ◌*◌, ◌≤◌, ◌<◌, length, set};
ghost use Rattle.plan.specs.Lists.{count};
ghost use Rattle.plan.specs.Hoist as Hoist;
ghost use Rattle.plan.specs.Schedule as Schedule;
ghost use Rattle.plan.specs.Layout.{IsLent, task_word, slots_at, reached_at, tasks_at};
ghost use Rattle.plan.specs.Regions.{written, flag, flags, Region};
ghost use Rattle.plan.specs.Words.{nodes_to};
ghost use Rattle.plan.specs.ControlLaws.{home_in, controls_in, control_in};

use crate::{Flow, hoist};

// Does a node get a control slot: the sample phase reaches it, and it is hoistable.
#[tactic(auto, unfolding(crate::specs::ControlLaws::home_in))]
fn is_home(flow: &Flow<'_>, work: &[u32], i: usize) -> bool
    requires { IsLent flow.now work.now × (i < flow.now.sizes.nodes) }
    ensures { result ≡ home_in flow.now.sizes.nodes flow.now.nodes.now work.now i }
{
    work[flow.sizes.needed() + i] == 1 && hoist::is_hoistable(flow, work, i)
}

// The slot of one node, and whether the control phase's walk begins there. The result is how many slots are given so far.
fn number_slot(flow: &Flow<'_>, work: &mut [u32], i: usize, slots: u32) -> u32
    requires { IsLent flow.now work.old × (i < flow.now.sizes.nodes) × (slots ≤ i) }
    ensures { (result ≡ cond (home_in flow.now.sizes.nodes flow.now.nodes.now work.old i) (slots + 1) slots) × (work.new ≡ set (set work.old (slots_at flow.now.sizes + i) (cond (home_in flow.now.sizes.nodes flow.now.nodes.now work.old i) (slots + 1) 0)) (reached_at flow.now.sizes + i) (flag (home_in flow.now.sizes.nodes flow.now.nodes.now work.old i))) }
{
    let slot = flow.sizes.slots() + i;
    let reached = flow.sizes.reached() + i;
    if is_home(flow, work, i) {
        work[slot] = slots + 1;
        work[reached] = 1;
        slots + 1
    } else {
        work[slot] = 0;
        work[reached] = 0;
        slots
    }
}

// "gets a control slot, in node order": of all nodes. The result is how many slots there are.
pub fn number_slots(flow: &Flow<'_>, work: &mut [u32]) -> u32
    requires { IsLent flow.now work.old }
    ensures { (invariant needed : List Bool) → length invariant ≡ flow.now.sizes.nodes → length needed ≡ flow.now.sizes.nodes → Region 0 (flags invariant) work.old → Region flow.now.sizes.nodes (flags needed) work.old → (result ≡ count (Hoist.number 0 (Hoist.homes_of (nodes_to flow.now.nodes.now flow.now.sizes.nodes) invariant needed))) × (work.new ≡ written (reached_at flow.now.sizes) (flags (Hoist.homes_of (nodes_to flow.now.nodes.now flow.now.sizes.nodes) invariant needed)) (written (slots_at flow.now.sizes) (Hoist.number 0 (Hoist.homes_of (nodes_to flow.now.nodes.now flow.now.sizes.nodes) invariant needed)) work.old)) }
{
    let mut slots = 0;
    for i in 0..flow.sizes.nodes {
        slots = number_slot(flow, work, i, slots);
    }
    slots
}

// Does the control phase compute a node: it reaches it and must.
#[tactic(auto, unfolding(crate::specs::ControlLaws::controls_in, crate::specs::Words::computed_in))]
fn is_control(flow: &Flow<'_>, work: &[u32], i: usize) -> bool
    requires { IsLent flow.now work.now × (i < flow.now.sizes.nodes) }
    ensures { result ≡ controls_in flow.now.sizes.nodes flow.now.nodes.now work.now i }
{
    work[flow.sizes.reached() + i] == 1 && 0 < flow.operand_count(i)
}

// The tasks of one node, behind those before it: its computation, then its store if it has a control slot. The result is how many tasks there are.
#[tactic(auto, unfolding(crate::specs::ControlLaws::control_in, crate::specs::Regions::written))]
fn push_control(flow: &Flow<'_>, work: &mut [u32], i: usize, tasks: usize) -> usize
    requires { IsLent flow.now work.old × (i < flow.now.sizes.nodes) × (tasks ≤ 2 * i) }
    ensures { (result ≡ tasks + length (control_in flow.now.sizes.nodes flow.now.nodes.now work.old i)) × (work.new ≡ written (tasks_at flow.now.sizes + tasks) (control_in flow.now.sizes.nodes flow.now.nodes.now work.old i) work.old) }
{
    if !is_control(flow, work, i) {
        return tasks;
    }
    let sizes = flow.sizes;
    let at = sizes.tasks() + tasks;
    let task = i as u32;
    if work[sizes.slots() + i] == 0 {
        work[at] = task;
        return tasks + 1;
    }
    let keep = (sizes.nodes + i) as u32;
    work[at] = task;
    work[at + 1] = keep;
    tasks + 2
}

// Of all nodes that the control phase computes, in node order. The result is how many tasks there are.
pub fn control_tasks(flow: &Flow<'_>, work: &mut [u32]) -> usize
    requires { IsLent flow.now work.old }
    ensures { (slots : List ℕ) (reached : List Bool) → length slots ≡ flow.now.sizes.nodes → length reached ≡ flow.now.sizes.nodes → Region (slots_at flow.now.sizes) slots work.old → Region (reached_at flow.now.sizes) (flags reached) work.old → (result ≡ length (Schedule.control_tasks slots (Hoist.control_computations (nodes_to flow.now.nodes.now flow.now.sizes.nodes) reached))) × (work.new ≡ written (tasks_at flow.now.sizes) (map (task_word flow.now.sizes) (Schedule.control_tasks slots (Hoist.control_computations (nodes_to flow.now.nodes.now flow.now.sizes.nodes) reached))) work.old) }
{
    let mut tasks = 0;
    for i in 0..flow.sizes.nodes {
        tasks = push_control(flow, work, i, tasks);
    }
    tasks
}
