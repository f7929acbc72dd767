// The plan of a kernel (document 01, module 3): what is hoisted into the control phase, what each phase reaches, and the tasks of each phase in order. All
// of it stands in regions of one work table, whose places are in specs/Layout.
#![tactic(auto)]

pub mod control;
pub mod hoist;
pub mod schedule;
pub mod sources;

ghost use Rattle.std.specs.Prelude.{◌≡◌, ◌+◌, ◌*◌, ◌^◌, ◌<◌, length};
ghost use Rattle.block.specs.Block as Block;
ghost use Rattle.plan.specs.Words as Words;
ghost use Rattle.plan.specs.Schedule.{plan_of};
ghost use Rattle.plan.specs.Layout.{IsLent, Updates, Few, needed_at, slots_at, reached_at, canonical_at, fresh_at, last_at, tasks_at, homes_at, heads_at, chain_at};
ghost use Rattle.plan.specs.ControlShare.{the_flow, control_count, control_table, Cleared};
ghost use Rattle.plan.specs.Shares.{SampleBegins, SampleShare};

use block::Kind;

// How many nodes, states and delays an expanded block has.
#[derive(Clone, Copy)]
pub struct Sizes {
    pub nodes: usize,
    pub states: usize,
    pub delays: usize,
}

// Where each region of the work table begins; what a region holds is in specs/Layout. Offsets, and no slice for each region: `control_table` and `SampleShare`,
// which the two functions below promise, speak of the one table that document 01 has `compile` be lent. That the sizes are few (`Few`) and that a flow is lent with
// its table (`IsLent`) is asked for here and kept by no ghost field, which would ask it of functions that ask less, as `mark_roots`.
impl Sizes {
    fn needed(self) -> usize
        ensures { result ≡ needed_at self }
    {
        self.nodes
    }

    fn slots(self) -> usize
        requires { Few self }
        ensures { result ≡ slots_at self }
    {
        2 * self.nodes
    }

    fn reached(self) -> usize
        requires { Few self }
        ensures { result ≡ reached_at self }
    {
        3 * self.nodes
    }

    fn canonical(self) -> usize
        requires { Few self }
        ensures { result ≡ canonical_at self }
    {
        4 * self.nodes
    }

    fn fresh(self) -> usize
        requires { Few self }
        ensures { result ≡ fresh_at self }
    {
        8 * self.nodes
    }

    fn last(self) -> usize
        requires { Few self }
        ensures { result ≡ last_at self }
    {
        10 * self.nodes
    }

    fn tasks(self) -> usize
        requires { Few self }
        ensures { result ≡ tasks_at self }
    {
        11 * self.nodes
    }

    fn homes(self) -> usize
        requires { Few self }
        ensures { result ≡ homes_at self }
    {
        17 * self.nodes + 3 * (self.states + self.delays + 1)
    }

    fn heads(self) -> usize
        requires { Few self }
        ensures { result ≡ heads_at self }
    {
        self.homes() + 258 + self.states + self.delays
    }

    fn chain(self) -> usize
        requires { Few self }
        ensures { result ≡ chain_at self }
    {
        self.heads() + self.nodes + 1
    }
}

// An expanded block as the compiler reads it: the words of its nodes, the update of each state and of each delay (0 is none, else a node's number and one:
// words of lent tables, as `flow_in` in specs/ControlShare reads them), the node of its output, and how many of each there are.
#[derive(Clone, Copy)]
pub struct Flow<'a> {
    pub nodes: &'a [u32],
    pub updates: &'a [u32],
    pub stores: &'a [u32],
    pub output: usize,
    pub sizes: Sizes,
}

impl Flow<'_> {
    // The three words of a node: its code, and what its code says of the other two.
    fn code(&self, i: usize) -> u32
        requires { 3 * i < length self.now.nodes.now }
        ensures { result ≡ Block.code self.now.nodes.now i }
    {
        self.nodes[3 * i]
    }

    fn first(&self, i: usize) -> usize
        requires { 3 * i + 1 < length self.now.nodes.now }
        ensures value { result ≡ Block.first self.now.nodes.now i }
        ensures word { result < 2 ^ 32 }
    {
        self.nodes[3 * i + 1] as usize
    }

    fn second(&self, i: usize) -> usize
        requires { 3 * i + 2 < length self.now.nodes.now }
        ensures { result ≡ Block.second self.now.nodes.now i }
    {
        self.nodes[3 * i + 2] as usize
    }

    // How many operands a node has: none, unless it is computed.
    pub fn operand_count(&self, i: usize) -> u32
        requires { 3 * i < length self.now.nodes.now }
        ensures { result ≡ Words.operand_count self.now.nodes.now i }
    {
        Kind::from(self.code(i)).operands()
    }
}

// How many control slots the hoisted values have, and how many tasks the control phase.
#[derive(Clone, Copy)]
pub struct Hoisted {
    pub slots: u32,
    pub tasks: usize,
}

// The control phase's share of the plan: what is hoisted, what each phase reaches, the control slots and the control tasks.
pub fn plan_control(flow: &Flow<'_>, work: &mut [u32]) -> Hoisted
    requires { IsLent flow.now work.old × Updates flow.now.sizes flow.now.updates.now × Updates flow.now.sizes flow.now.stores.now × (flow.now.output < flow.now.sizes.nodes) × Cleared flow.now.sizes work.old }
    ensures { (result ≡ control_count (the_flow flow.now)) × (work.new ≡ control_table flow.now.sizes (the_flow flow.now) work.old) }
{
    hoist::invariance(flow, work);
    hoist::mark_roots(flow, work);
    hoist::sweep(flow, work, flow.sizes.needed(), false);
    let slots = control::number_slots(flow, work);
    hoist::sweep(flow, work, flow.sizes.reached(), true);
    let tasks = control::control_tasks(flow, work);
    Hoisted { slots, tasks }
}

// The sample phase's share of the plan: the first nodes of its sources, and its tasks. The result is how many tasks there are.
pub fn plan_sample(flow: &Flow<'_>, work: &mut [u32]) -> usize
    requires { IsLent flow.now work.old × Updates flow.now.sizes flow.now.updates.now × Updates flow.now.sizes flow.now.stores.now × (length flow.now.updates.now ≡ flow.now.sizes.states) × (length flow.now.stores.now ≡ flow.now.sizes.delays) × (flow.now.output < flow.now.sizes.nodes) × SampleBegins flow.now.sizes (the_flow flow.now) work.old }
    ensures { (result ≡ length (plan_of (the_flow flow.now)).sample_tasks) × SampleShare flow.now.sizes (the_flow flow.now) work.old work.new }
{
    sources::canonical(flow, work, false);
    schedule::last_reads(flow, work);
    schedule::chain_writes(flow, work);
    schedule::sample_tasks(flow, work)
}
