// The register allocator (document 01, module 4; codegen.rs, `struct Allocator`) over one work table. The allocator is a small struct by value; what it
// knows of each node stands in regions of the work table, whose places are in specs/Layout.
#![tactic(auto)]

pub mod fetch;
pub mod phase;
pub mod registers;
pub mod release;
pub mod steps;
pub mod take;
pub mod tasks;

// What stays the same in a phase: how many nodes, states and delays, the mask of usable registers, how many slots are hoisted values' own, and whether it is
// the control phase. The words of the nodes come beside it, as every definition in specs/ (`fetched`, `ran`, ..) takes them.
#[derive(Clone, Copy)]
pub struct Frame {
    pub nodes: usize,
    pub states: usize,
    pub delays: usize,
    pub mask: u32,
    pub fixed: u32,
    pub control: bool,
}

// Where the work table holds what is known of a node, a task or a memory: the regions of specs/Layout. Five of them are regions of plan's `Sizes` too; each crate's
// definitions speak of its own struct (`slot_at frame node`), so each has its methods. That the nodes are few is asked for here and kept by no ghost field, which
// would ask it of every function that takes a frame.
impl Frame {
    ghost use Rattle.std.specs.Prelude.{◌≡◌, ◌<◌, ◌≤◌};
    ghost use Rattle.allocate.specs.Layout.{slot_at, canonical_at, next_at, holder_at, spilled_at, fresh_at, freed_at, task_at, link_at, home_at};

    // The control slot + 1 of a hoisted node.
    fn slot_at(self, node: usize) -> usize
        requires { (self.nodes ≤ 65536) × (node < self.nodes) }
        ensures { result ≡ slot_at self node }
    {
        2 * self.nodes + node
    }

    // The first node of a node's source.
    fn canonical_at(self, node: usize) -> usize
        requires { (self.nodes ≤ 65536) × (node < self.nodes) }
        ensures { result ≡ canonical_at self node }
    {
        4 * self.nodes + node
    }

    // The position + 1 of the next task that reads a node.
    fn next_at(self, node: usize) -> usize
        requires { (self.nodes ≤ 65536) × (node < self.nodes) }
        ensures { result ≡ next_at self node }
    {
        5 * self.nodes + node
    }

    // The register + 1 that holds a node.
    fn holder_at(self, node: usize) -> usize
        requires { (self.nodes ≤ 65536) × (node < self.nodes) }
        ensures { result ≡ holder_at self node }
    {
        6 * self.nodes + node
    }

    // The slot + 1 that holds a node.
    fn spilled_at(self, node: usize) -> usize
        requires { (self.nodes ≤ 65536) × (node < self.nodes) }
        ensures { result ≡ spilled_at self node }
    {
        7 * self.nodes + node
    }

    // Not 0 where memory still holds a node.
    fn fresh_at(self, node: usize) -> usize
        requires { (self.nodes ≤ 65536) × (node < self.nodes) }
        ensures { result ≡ fresh_at self node }
    {
        8 * self.nodes + node
    }

    // A place of the stack of freed slots.
    fn freed_at(self, place: usize) -> usize
        requires { (self.nodes ≤ 65536) × (place ≤ self.nodes) }
        ensures { result ≡ freed_at self place }
    {
        9 * self.nodes + place
    }

    // The task at a position.
    fn task_at(self, position: usize) -> usize
        requires { (self.nodes ≤ 65536) × (position < 4294967296) }
        ensures { result ≡ task_at self position }
    {
        11 * self.nodes + position
    }

    // The reads after a task, two words a task.
    fn link_at(self, place: usize) -> usize
        requires { ((self.nodes ≤ 65536) × (place < 4294967296)) × ((self.states ≤ 4096) × (self.delays ≤ 4096)) }
        ensures { result ≡ link_at self place }
    {
        13 * self.nodes + self.states + self.delays + 1 + place
    }

    // The first node + 1 that reads a memory.
    fn home_at(self, source: usize) -> usize
        requires { ((self.nodes ≤ 65536) × (source < 4294967296)) × ((self.states ≤ 4096) × (self.delays ≤ 4096)) }
        ensures { result ≡ home_at self source }
    {
        17 * self.nodes + 3 * self.states + 3 * self.delays + 3 + source
    }
}

// The node + 1 in each register, 0 none, as `Registers` of specs/ reads it, with no Option; the slots in use; how many freed slots stand on their stack; how many steps and instructions are written; the most
// registers held at once.
#[derive(Clone, Copy)]
pub struct Allocator {
    pub owner: [u32; 16],
    pub slots: u32,
    pub freed: usize,
    pub steps: usize,
    pub instructions: usize,
    pub most: u32,
}

// Where a phase's tasks are worked off: the work table, the steps and the instructions that were lent, and the allocator. The methods are with their kind,
// one module each: `steps`, `take`, `fetch`, `release`, `tasks` and `phase`. `frame` and the nodes stay parameters of theirs: the definitions take them
// apart from the desk. So `Wide` and `ReadyAt`, which speak of a frame and a desk together, stand in the clauses: no ghost field of one can say them.
#[derive(Drop)]
pub struct Desk<'a> {
    pub work: &'a mut [u32],
    pub steps: &'a mut [u32],
    pub instructions: &'a mut [u32],
    pub allocator: Allocator,
}

// A slot + 1 to spill to, and what is left of the freed slots.
#[derive(Clone, Copy)]
pub struct Slot {
    pub slot: u32,
    pub freed: usize,
    pub slots: u32,
}

// The code and index of a load (1 to 6) or a store (10 to 12); 7 and the bits of an immediate; 0 where a value is computed. The code is the number that the
// step's word begins with, and the definitions supply_of, target_of, brought and written say it so: an enum would need that number again.
#[derive(Clone, Copy)]
pub struct Access {
    pub code: u32,
    pub index: u32,
}

// The first nodes of what a task reads; a task that reads one value has it twice.
#[derive(Clone, Copy)]
pub struct Reads {
    pub first: usize,
    pub second: usize,
}

// The registers of what a task reads, as far as they are to be had.
#[derive(Clone, Copy)]
pub struct Fetched {
    pub first: Option<usize>,
    pub second: Option<usize>,
}

// The registers that hold what a task reads.
#[derive(Clone, Copy)]
pub struct Operands {
    pub first: usize,
    pub second: usize,
}
