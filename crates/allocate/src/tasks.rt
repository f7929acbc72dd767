// One task (codegen.rs, `run`): its operands are fetched, what it says is done, and what is not read again is released. None says that an operation needs a
// register and every usable one is locked: answer 14.
ghost use Rattle.std.specs.Prelude.{◌≡◌, ℕ, ◌+◌, ◌*◌, ◌<◌, ◌≤◌, length, get_or, IfSome};
ghost use Rattle.allocate.specs.Layout.{Wide};
ghost use Rattle.allocate.specs.Tasks.{the_lent, value_of, canonical_of, compute_reads, reads_of, advanced, lowered, target_of};
ghost use Rattle.allocate.specs.Planned.{TaskFits};

use crate::{Access, Desk, Fetched, Frame, Operands, Reads, steps};
use kernel::Instruction;
use plan::Flow;

// The node whose value a task keeps or stores.
#[tactic(auto, unfolding(crate::specs::Tasks::value_of))]
fn value_of(flow: &Flow<'_>, frame: Frame, task: usize) -> usize
    requires { ((frame.nodes ≤ task) × (frame.nodes ≤ 65536)) × ((frame.states ≤ length flow.now.updates.now) × (frame.delays ≤ length flow.now.stores.now)) }
    ensures { result ≡ value_of frame flow.now.updates.now flow.now.stores.now flow.now.output task }
{
    let nodes = frame.nodes;
    if task < 2 * nodes {
        return task - nodes;
    }
    let memory = task - 2 * nodes;
    if memory < frame.states {
        return steps::option_value(flow.updates[memory]) as usize;
    }
    let delay = memory - frame.states;
    if delay < frame.delays {
        return steps::option_value(flow.stores[delay]) as usize;
    }
    flow.output
}

// The first node of a node's source.
fn canonical(work: &[u32], frame: Frame, node: usize) -> usize
    requires { Wide frame work.now × (node < frame.nodes) }
    ensures { result ≡ canonical_of frame work.now node }
{
    let at = frame.canonical_at(node);
    work[at] as usize
}

// The operands of a computation: codes up to 10 have two, as the definition `compute_reads` says it.
#[tactic(auto, unfolding(crate::specs::Tasks::compute_reads))]
fn compute_reads(nodes: &[u32], work: &[u32], frame: Frame, node: usize) -> Reads
    requires wide { Wide frame work.now × ((node < frame.nodes) × (3 * frame.nodes ≤ length nodes.now)) }
    requires node_bound { (get_or nodes.now (3 * node + 1) 0 < frame.nodes) × (get_or nodes.now (3 * node) 0 < 11 → get_or nodes.now (3 * node + 2) 0 < frame.nodes) }
    ensures { result ≡ compute_reads frame nodes.now work.now node }
{
    let at = 3 * node;
    let code = nodes[at];
    let lhs = nodes[at + 1] as usize;
    let first = canonical(work, frame, lhs);
    if code < 11 {
        let rhs = nodes[at + 2] as usize;
        let second = canonical(work, frame, rhs);
        return Reads { first, second };
    }
    Reads {
        first,
        second: first,
    }
}

// What a task reads.
#[tactic(auto, unfolding(crate::specs::Tasks::reads_of))]
pub fn reads_of(flow: &Flow<'_>, work: &[u32], frame: Frame, task: usize) -> Reads
    requires { Wide frame work.now × TaskFits frame (the_lent flow.now) task }
    ensures { result ≡ reads_of frame (the_lent flow.now) work.now task }
{
    if task < frame.nodes {
        return compute_reads(flow.nodes, work, frame, task);
    }
    let value = value_of(flow, frame, task);
    let first = canonical(work, frame, value);
    Reads {
        first,
        second: first,
    }
}

// The task's own reads are no next reads any more.
#[tactic(auto, unfolding(crate::specs::Tasks::advanced))]
pub fn advance(work: &mut [u32], frame: Frame, reads: Reads, position: usize)
    requires { Wide frame work.old × (((reads.first < frame.nodes) × (reads.second < frame.nodes)) × (position ≤ 2 * frame.nodes + frame.states + frame.delays)) }
    ensures { work.new ≡ advanced frame reads position work.old }
{
    let one = frame.link_at(2 * position);
    let two = frame.link_at(2 * position + 1);
    let first = work[one];
    let second = work[two];
    let lhs = frame.next_at(reads.first);
    work[lhs] = first;
    let rhs = frame.next_at(reads.second);
    work[rhs] = second;
}

// The instruction of a computation's code: a word of a node's record, as `lowered` has it.
#[tactic(auto, unfolding(crate::specs::Tasks::lowered))]
fn lower(code: u32, dst: u32, lhs: u32, rhs: u32) -> Instruction
    ensures { result ≡ lowered code dst lhs rhs }
{
    match code {
        5 => Instruction::Add { dst, lhs, rhs },
        6 => Instruction::Sub { dst, lhs, rhs },
        7 => Instruction::Mul { dst, lhs, rhs },
        8 => Instruction::Min { dst, lhs, rhs },
        9 => Instruction::Max { dst, lhs, rhs },
        12 => Instruction::Neg { dst, src: lhs },
        13 => Instruction::Abs { dst, src: lhs },
        _ => Instruction::IntegerSub { dst, lhs, rhs },
    }
}

// The code and index of a store.
#[tactic(auto, unfolding(crate::specs::Tasks::target_of))]
fn target_of(frame: Frame, memory: usize) -> Access
    requires { memory < 4294967296 }
    ensures target { result ≡ target_of frame memory }
    ensures small { result.code < 16 }
{
    let states = frame.states;
    if memory < states {
        let index = memory as u32;
        return Access { code: 10, index };
    }
    let delay = memory - states;
    if delay < frame.delays {
        let index = delay as u32;
        return Access { code: 11, index };
    }
    Access { code: 12, index: 0 }
}

impl Desk<'_> {
    ghost use Rattle.allocate.specs.Desk.{the_desk, KeepsTables, choice};
    ghost use Rattle.allocate.specs.Ready.{ReadyAt, RoomAt};
    ghost use Rattle.allocate.specs.Tasks.{held, fetched_both, handed, destined, computed, stowed, home_of, preserved, written, stored, arm_of};

    // What a task reads, in registers: each is locked once it is fetched. Where no register is to be had for the second, the first is told all the same.
    #[tactic(auto, unfolding(crate::specs::Tasks::fetched_both, crate::specs::Tasks::second_after))]
    pub fn fetch_both(&mut self, nodes: &[u32], frame: Frame, reads: Reads) -> Fetched
        requires ready { ReadyAt frame (the_desk self.old) × (((reads.first < frame.nodes) × (reads.second < frame.nodes)) × (3 * frame.nodes ≤ length nodes.now)) }
        requires room { RoomAt 4 (the_desk self.old) }
        ensures done { held result self.new ≡ fetched_both frame nodes.now reads (the_desk self.old) }
        ensures registers { IfSome result.first (λ r. r < 16) × IfSome result.second (λ r. r < 16) }
        ensures same_tables { KeepsTables self.old self.new }
    {
        let first = self.fetch(nodes, frame, &[], reads.first);
        let Some(locked) = first else {
            return Fetched {
                first,
                second: None,
            };
        };
        let second = self.fetch(nodes, frame, &[locked], reads.second);
        Fetched { first, second }
    }

    // A dying operand lends its register to the result.
    #[tactic(auto, unfolding(crate::specs::Tasks::handed))]
    fn hand(&mut self, frame: Frame, dying: usize, register: usize, node: usize)
        requires { Wide frame self.old.work.now × ((dying < frame.nodes) × ((node < frame.nodes) × (register < 16))) }
        ensures done { the_desk self.new ≡ handed frame dying register node (the_desk self.old) }
        ensures same_tables { KeepsTables self.old self.new }
    {
        let from = frame.holder_at(dying);
        let to = frame.holder_at(node);
        self.work[from] = 0;
        self.work[to] = (register + 1) as u32;
        self.allocator.owner[register] = (node + 1) as u32;
    }

    // A register for the result: a dying operand's, the first if both die, else one is taken.
    #[tactic(auto, unfolding(crate::specs::Tasks::destined))]
    fn destination(
        &mut self,
        frame: Frame,
        reads: Reads,
        operands: Operands,
        node: usize,
    ) -> Option<usize>
        requires ready { ReadyAt frame (the_desk self.old) × (((reads.first < frame.nodes) × (reads.second < frame.nodes)) × (node < frame.nodes)) }
        requires one_bound { ((operands.first < 16) × (operands.second < 16)) × ((2 * (self.old.allocator.steps + 1) ≤ length self.old.steps.now) × (self.old.allocator.slots < 1048576)) }
        ensures done { choice result self.new ≡ destined frame reads operands.first operands.second node (the_desk self.old) }
        ensures register { IfSome result (λ r. r < 16) }
        ensures same_tables { KeepsTables self.old self.new }
    {
        let Operands { first, second } = operands;
        let lhs = frame.next_at(reads.first);
        if self.work[lhs] == 0 {
            self.hand(frame, reads.first, first, node);
            return Some(first);
        }
        let rhs = frame.next_at(reads.second);
        if self.work[rhs] == 0 {
            self.hand(frame, reads.second, second, node);
            return Some(second);
        }
        self.take(frame, &[first, second], node)
    }

    // A computation, whose operands are held.
    #[tactic(auto, unfolding(crate::specs::Tasks::computed))]
    fn compute(
        &mut self,
        nodes: &[u32],
        frame: Frame,
        reads: Reads,
        operands: Operands,
        node: usize,
    ) -> Option<usize>
        requires ready { ReadyAt frame (the_desk self.old) × (((reads.first < frame.nodes) × (reads.second < frame.nodes)) × (node < frame.nodes)) }
        requires one_bound { ((operands.first < 16) × (operands.second < 16)) × (RoomAt 2 (the_desk self.old) × (3 * frame.nodes ≤ length nodes.now)) }
        ensures done { choice result self.new ≡ computed frame nodes.now reads operands.first operands.second node (the_desk self.old) }
        ensures register { IfSome result (λ r. r < 16) }
        ensures same_tables { KeepsTables self.old self.new }
    {
        let register = self.destination(frame, reads, operands, node)?;
        let code = nodes[3 * node];
        let instruction = lower(
            code,
            register as u32,
            operands.first as u32,
            operands.second as u32,
        );
        self.emit_instruction(instruction);
        Some(register)
    }

    // A hoisted value goes to its own control slot.
    #[tactic(auto, unfolding(crate::specs::Tasks::stowed, crate::specs::Desk::emitted))]
    fn keep(&mut self, frame: Frame, register: usize, node: usize)
        requires { Wide frame self.old.work.now × ((node < frame.nodes) × ((2 * (self.old.allocator.steps + 1) ≤ length self.old.steps.now) × (register ≤ 16))) }
        ensures done { the_desk self.new ≡ stowed frame register node (the_desk self.old) }
        ensures same_tables { KeepsTables self.old self.new }
    {
        let place = frame.slot_at(node);
        let slot = self.work[place];
        let index = steps::option_value(slot);
        self.emit(13, register, index);
        let at = frame.spilled_at(node);
        self.work[at] = slot;
    }

    // The first node + 1 that reads what a store overwrites.
    #[tactic(auto, unfolding(crate::specs::Tasks::home_of))]
    fn home_of(&self, frame: Frame, memory: usize) -> u32
        requires { Wide frame self.now.work.now × (memory ≤ frame.states + frame.delays) }
        ensures { result ≡ home_of frame self.now.work.now memory }
    {
        let source = if memory < frame.states + frame.delays {
            258 + memory
        } else {
            0
        };
        let at = frame.home_at(source);
        self.work[at]
    }

    // An old value that is still to be read is loaded while memory still holds it. The store's own value stays in its register.
    #[tactic(auto, unfolding(crate::specs::Tasks::preserved))]
    fn preserve(&mut self, nodes: &[u32], frame: Frame, register: usize, home: u32) -> Option<usize>
        requires ready { ReadyAt frame (the_desk self.old) × ((home ≤ frame.nodes) × (3 * frame.nodes ≤ length nodes.now)) }
        requires room { RoomAt 2 (the_desk self.old) }
        requires held { register < 16 }
        ensures done { choice result self.new ≡ preserved frame nodes.now register home (the_desk self.old) }
        ensures register { IfSome result (λ r. r < 16) }
        ensures same_tables { KeepsTables self.old self.new }
    {
        if home == 0 {
            return Some(register);
        }
        let node = (home - 1) as usize;
        let fresh = frame.fresh_at(node);
        if self.work[fresh] == 0 {
            return Some(register);
        }
        let next = frame.next_at(node);
        if self.work[next] == 0 {
            return Some(register);
        }
        self.fetch(nodes, frame, &[register], node)
    }

    // The store, after which memory no longer holds what it held.
    #[tactic(auto, unfolding(crate::specs::Tasks::written, crate::specs::Desk::emitted))]
    fn write(&mut self, frame: Frame, to: Access, register: usize, home: u32)
        requires wide { Wide frame self.old.work.now × (home ≤ frame.nodes) }
        requires steps_in_bounds { (2 * (self.old.allocator.steps + 1) ≤ length self.old.steps.now) × ((register ≤ 16) × (to.code < 16)) }
        ensures done { the_desk self.new ≡ written frame to register home (the_desk self.old) }
        ensures same_tables { KeepsTables self.old self.new }
    {
        self.emit(to.code, register, to.index);
        if home == 0 {
            return;
        }
        let node = (home - 1) as usize;
        let fresh = frame.fresh_at(node);
        self.work[fresh] = 0;
    }

    // A write of a state, of a delay or of the output, whose value a register holds.
    #[tactic(auto, unfolding(crate::specs::Tasks::stored))]
    fn store(
        &mut self,
        nodes: &[u32],
        frame: Frame,
        register: usize,
        memory: usize,
    ) -> Option<usize>
        requires ready { ReadyAt frame (the_desk self.old) × ((home_of frame self.old.work.now memory ≤ frame.nodes) × (3 * frame.nodes ≤ length nodes.now)) }
        requires room { RoomAt 3 (the_desk self.old) × ((register < 16) × (memory ≤ frame.states + frame.delays)) }
        ensures done { choice result self.new ≡ stored frame nodes.now register memory (the_desk self.old) }
        ensures register { IfSome result (λ r. r < 16) }
        ensures same_tables { KeepsTables self.old self.new }
    {
        let home = self.home_of(frame, memory);
        let to = target_of(frame, memory);
        self.preserve(nodes, frame, register, home)?;
        self.write(frame, to, register, home);
        Some(register)
    }

    // What a task says, once its operands are held.
    #[tactic(auto, unfolding(crate::specs::Tasks::arm_of))]
    pub fn arm(
        &mut self,
        nodes: &[u32],
        frame: Frame,
        reads: Reads,
        operands: Operands,
        task: usize,
    ) -> Option<usize>
        requires ready { ReadyAt frame (the_desk self.old) × (((reads.first < frame.nodes) × (reads.second < frame.nodes)) × (task ≤ 2 * frame.nodes + frame.states + frame.delays)) }
        requires one_bound { ((operands.first < 16) × (operands.second < 16)) × ((RoomAt 3 (the_desk self.old) × (3 * frame.nodes ≤ length nodes.now)) × ((memory : ℕ) → memory ≤ frame.states + frame.delays → home_of frame self.old.work.now memory ≤ frame.nodes)) }
        ensures done { choice result self.new ≡ arm_of frame nodes.now reads operands.first operands.second task (the_desk self.old) }
        ensures register { IfSome result (λ r. r < 16) }
        ensures same_tables { KeepsTables self.old self.new }
    {
        let count = frame.nodes;
        let first = operands.first;
        if task < count {
            return self.compute(nodes, frame, reads, operands, task);
        }
        if task < 2 * count {
            self.keep(frame, first, task - count);
            return Some(first);
        }
        self.store(nodes, frame, first, task - 2 * count)
    }
}
