// The tasks of the sample phase (codegen.rs, `sample_schedule`).
ghost use Rattle.std.specs.Prelude.{◌≡◌, ◌++◌, ◌+◌, ◌-◌, ◌*◌, ◌≤◌, ◌<◌, length, get_or};
ghost use Rattle.tables.specs.Loops.{turns};
ghost use Rattle.plan.specs.Layout.{IsLent, Updates, Room, tasks_at};
ghost use Rattle.plan.specs.Regions.{written};
ghost use Rattle.plan.specs.Words.{operands_in};
ghost use Rattle.plan.specs.SampleLaws.{sample_in};
ghost use Rattle.plan.specs.Chains.{Canonicals, Reading, read_by, read_by_all, last_node, reader_in, after_in, linked, chain_write, chain_writes, Chained, writes_after, tasks_after, sample_words};

use crate::{Flow, Sizes};

// Does the sample phase compute a node: it reaches it, and the node is computed and has no control slot.
#[tactic(auto, unfolding(crate::specs::SampleLaws::sample_in, crate::specs::Words::computed_in))]
pub fn is_sample_computation(flow: &Flow<'_>, work: &[u32], i: usize) -> bool
    requires { IsLent flow.now work.now × (i < flow.now.sizes.nodes) }
    ensures { result ≡ sample_in flow.now.sizes.nodes flow.now.nodes.now work.now i }
{
    let sizes = flow.sizes;
    work[sizes.needed() + i] == 1 && work[sizes.slots() + i] == 0 && 0 < flow.operand_count(i)
}

// Computation i reads a node: it is the last so far that reads that source.
#[tactic(auto, unfolding(crate::specs::Chains::read_by))]
fn note_read(work: &mut [u32], sizes: Sizes, node: usize, i: usize)
    requires { Room sizes (length work.old) × Canonicals sizes work.old × (node < sizes.nodes) × (i < sizes.nodes) }
    ensures { work.new ≡ read_by sizes.nodes i node work.old }
{
    let first = work[sizes.canonical() + node] as usize;
    work[sizes.last() + first] = (i + 1) as u32;
}

// .. its operands.
#[tactic(auto, unfolding(crate::specs::Words::operands_in))]
fn note_reads(flow: &Flow<'_>, work: &mut [u32], i: usize)
    requires { IsLent flow.now work.old × Canonicals flow.now.sizes work.old × (i < flow.now.sizes.nodes) }
    ensures { work.new ≡ read_by_all flow.now.sizes.nodes i (operands_in flow.now.nodes.now i) work.old }
{
    let count = flow.operand_count(i);
    if count > 0 {
        note_read(work, flow.sizes, flow.first(i), i);
    }
    if count > 1 {
        note_read(work, flow.sizes, flow.second(i), i);
    }
}

// The reads of one node, if the sample phase computes it.
#[tactic(auto, unfolding(crate::specs::Chains::last_node))]
fn last_node(flow: &Flow<'_>, work: &mut [u32], i: usize)
    requires { IsLent flow.now work.old × Canonicals flow.now.sizes work.old × (i < flow.now.sizes.nodes) }
    ensures { work.new ≡ last_node flow.now.sizes.nodes flow.now.nodes.now i work.old }
{
    if is_sample_computation(flow, work, i) {
        note_reads(flow, work, i);
    }
}

// The last computation that reads each source, by its first node.
pub fn last_reads(flow: &Flow<'_>, work: &mut [u32])
    requires { IsLent flow.now work.old × Canonicals flow.now.sizes work.old }
    ensures { work.new ≡ turns (last_node flow.now.sizes.nodes flow.now.nodes.now) work.old flow.now.sizes.nodes }
{
    for i in 0..flow.sizes.nodes {
        last_node(flow, work, i);
    }
}

// The last computation that reads memory w, and one; 0 is none. A word of the table and no Option: it is compared and stored as that word (specs/Chains, `reader_in`).
#[tactic(auto, unfolding(crate::specs::Chains::reader_in))]
fn last_reader(work: &[u32], sizes: Sizes, w: usize) -> u32
    requires { Room sizes (length work.now) × Reading sizes work.now × (w < sizes.states + sizes.delays) }
    ensures { result ≡ reader_in sizes work.now w }
{
    let home = work[sizes.homes() + (258 + w)] as usize;
    if home == 0 {
        0
    } else {
        work[sizes.last() + (home - 1)]
    }
}

// "right after the later of its new value's computation and the last one reading its old value": that computation and one, 0 is none.
#[tactic(auto, unfolding(crate::specs::Chains::after_in))]
fn after(flow: &Flow<'_>, work: &[u32], w: usize, value: usize) -> u32
    requires { IsLent flow.now work.now × Reading flow.now.sizes work.now × (w < flow.now.sizes.states + flow.now.sizes.delays) × (value < flow.now.sizes.nodes) }
    ensures { result ≡ after_in flow.now.sizes flow.now.nodes.now work.now w value }
{
    let read = last_reader(work, flow.sizes, w);
    if is_sample_computation(flow, work, value) {
        read.max((value + 1) as u32)
    } else {
        read
    }
}

// The write of memory w comes first of those right after a computation.
#[tactic(auto, unfolding(crate::specs::Chains::linked))]
fn link_write(work: &mut [u32], sizes: Sizes, w: usize, place: usize)
    requires { Room sizes (length work.old) × (w < sizes.states + sizes.delays) × (place ≤ sizes.nodes) }
    ensures { work.new ≡ linked sizes w place work.old }
{
    let head = sizes.heads() + place;
    work[sizes.chain() + w] = work[head];
    work[head] = (w + 1) as u32;
}

// The write of memory w, if it has an update.
#[tactic(auto, unfolding(crate::specs::Chains::chain_write))]
fn chain_write(flow: &Flow<'_>, work: &mut [u32], update: u32, w: usize)
    requires { IsLent flow.now work.old × Reading flow.now.sizes work.old × (w < flow.now.sizes.states + flow.now.sizes.delays) × (update ≤ flow.now.sizes.nodes) }
    ensures { work.new ≡ chain_write flow.now.sizes flow.now.nodes.now update w work.old }
{
    if let Some(value) = update.checked_sub(1) {
        let place = after(flow, work, w, value as usize) as usize;
        link_write(work, flow.sizes, w, place);
    }
}

// The update of memory w: states, then delays.
fn update_of(flow: &Flow<'_>, w: usize) -> u32
    requires { w < length flow.now.updates.now + length flow.now.stores.now }
    ensures { result ≡ get_or (flow.now.updates.now ++ flow.now.stores.now) w 0 }
{
    let states = flow.updates.len();
    if w < states {
        flow.updates[w]
    } else {
        flow.stores[w - states]
    }
}

// All writes, the last first, so that each chain is in order.
pub fn chain_writes(flow: &Flow<'_>, work: &mut [u32])
    requires { IsLent flow.now work.old × Reading flow.now.sizes work.old × Updates flow.now.sizes (flow.now.updates.now ++ flow.now.stores.now) × (length flow.now.updates.now ≡ flow.now.sizes.states) × (length flow.now.stores.now ≡ flow.now.sizes.delays) }
    ensures { work.new ≡ chain_writes flow.now.sizes flow.now.nodes.now (flow.now.updates.now ++ flow.now.stores.now) (flow.now.sizes.states + flow.now.sizes.delays) work.old }
{
    for w in (0..flow.sizes.states + flow.sizes.delays).rev() {
        chain_write(flow, work, update_of(flow, w), w);
    }
}

// The writes right after a computation (first of all where the place is 0), behind the tasks so far. The result is how many tasks there are. A walk along links
// that the word 0 ends (specs/Chains, `chain_from`), so no range or slice counts its turns.
fn push_chain(work: &mut [u32], sizes: Sizes, place: usize, tasks: usize) -> usize
    requires { Room sizes (length work.old) × Chained sizes work.old × (place ≤ sizes.nodes) × (tasks + length (writes_after sizes work.old place) ≤ 2 * sizes.nodes + sizes.states + sizes.delays + 1) }
    ensures { (result ≡ tasks + length (writes_after sizes work.old place)) × (work.new ≡ written (tasks_at sizes + tasks) (writes_after sizes work.old place) work.old) }
{
    let mut total = tasks;
    let mut word = work[sizes.heads() + place] as usize;
    while word > 0 {
        let w = word - 1;
        work[sizes.tasks() + total] = (2 * sizes.nodes + w) as u32;
        total += 1;
        word = work[sizes.chain() + w] as usize;
    }
    total
}

// The tasks of one node, if the sample phase computes it: its computation, then the writes right after it.
fn push_node(flow: &Flow<'_>, work: &mut [u32], i: usize, tasks: usize) -> usize
    requires { IsLent flow.now work.old × Chained flow.now.sizes work.old × (i < flow.now.sizes.nodes) × (tasks + length (tasks_after flow.now.sizes flow.now.nodes.now work.old i) ≤ 2 * flow.now.sizes.nodes + flow.now.sizes.states + flow.now.sizes.delays + 1) }
    ensures { (result ≡ tasks + length (tasks_after flow.now.sizes flow.now.nodes.now work.old i)) × (work.new ≡ written (tasks_at flow.now.sizes + tasks) (tasks_after flow.now.sizes flow.now.nodes.now work.old i) work.old) }
{
    if !is_sample_computation(flow, work, i) {
        return tasks;
    }
    work[flow.sizes.tasks() + tasks] = i as u32;
    push_chain(work, flow.sizes, i + 1, tasks + 1)
}

// All tasks of the sample phase, the output last. The result is how many there are.
pub fn sample_tasks(flow: &Flow<'_>, work: &mut [u32]) -> usize
    requires { IsLent flow.now work.old × Chained flow.now.sizes work.old × (length (sample_words flow.now.sizes flow.now.nodes.now work.old) ≤ 2 * flow.now.sizes.nodes + flow.now.sizes.states + flow.now.sizes.delays + 1) }
    ensures { (result ≡ length (sample_words flow.now.sizes flow.now.nodes.now work.old)) × (work.new ≡ written (tasks_at flow.now.sizes) (sample_words flow.now.sizes flow.now.nodes.now work.old) work.old) }
{
    let sizes = flow.sizes;
    let mut tasks = push_chain(work, sizes, 0, 0);
    for i in 0..sizes.nodes {
        tasks = push_node(flow, work, i, tasks);
    }
    work[sizes.tasks() + tasks] = (2 * sizes.nodes + (sizes.states + sizes.delays)) as u32;
    tasks + 1
}
