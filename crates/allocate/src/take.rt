// A register for a value (codegen.rs, `spill` and `take`).
ghost use Rattle.std.specs.Prelude.{◌≡◌, ◌+◌, ◌*◌, ◌<◌, ◌≤◌, length, IfSome};
ghost use Rattle.allocate.specs.Layout.{Wide};
ghost use Rattle.allocate.specs.Registers.{Owners, lock};
ghost use Rattle.allocate.specs.Desk.{spill_code};

use crate::{Desk, Frame, Slot, registers, steps};

// The step that saves a register: the control phase spills to control slots.
#[tactic(auto, unfolding(crate::specs::Desk::spill_code))]
fn spill_code(frame: Frame) -> u32
    ensures code { result ≡ spill_code frame }
    ensures small { result < 16 }
{
    if frame.control { 13 } else { 8 }
}

impl Desk<'_> {
    ghost use Rattle.allocate.specs.Desk.{the_desk, KeepsTables, choice, next_slot, spilt, settled, evicted, taken};

    // "Freed spill slots are used again, last freed first"; else a new one.
    #[tactic(auto, unfolding(crate::specs::Desk::next_slot))]
    fn next_slot(&self, frame: Frame) -> Slot
        requires { Wide frame self.now.work.now × ((self.now.allocator.freed ≤ frame.nodes) × (self.now.allocator.slots < 1048576)) }
        ensures { result ≡ next_slot frame self.now.work.now self.now.allocator }
    {
        let freed = self.allocator.freed;
        let slots = self.allocator.slots;
        if freed == 0 {
            return Slot {
                slot: slots + 1,
                freed,
                slots: slots + 1,
            };
        }
        let top = frame.freed_at(freed - 1);
        Slot {
            slot: self.work[top],
            freed: freed - 1,
            slots,
        }
    }

    // A node, which a register holds, is saved to a slot.
    #[tactic(auto, unfolding(crate::specs::Desk::spilt))]
    fn spill(&mut self, frame: Frame, node: usize, register: usize)
        requires wide { Wide frame self.old.work.now × ((node < frame.nodes) × ((self.old.allocator.freed ≤ frame.nodes) × (self.old.allocator.slots < 1048576))) }
        requires steps_in_bounds { (2 * (self.old.allocator.steps + 1) ≤ length self.old.steps.now) × (register ≤ 16) }
        ensures done { the_desk self.new ≡ spilt frame node register (the_desk self.old) }
        ensures same_tables { KeepsTables self.old self.new }
    {
        let got = self.next_slot(frame);
        let at = frame.spilled_at(node);
        self.work[at] = got.slot;
        self.allocator.freed = got.freed;
        self.allocator.slots = got.slots;
        let code = spill_code(frame);
        let index = steps::option_value(got.slot);
        self.emit(code, register, index);
    }

    // A node's register is this one, and so many are held.
    #[tactic(auto, unfolding(crate::specs::Desk::settled))]
    fn settle(&mut self, frame: Frame, node: usize, register: usize)
        requires { Wide frame self.old.work.now × ((node < frame.nodes) × (register < 16)) }
        ensures done { the_desk self.new ≡ settled frame node register (the_desk self.old) }
        ensures same_tables { KeepsTables self.old self.new }
    {
        let at = frame.holder_at(node);
        self.work[at] = (register + 1) as u32;
        self.allocator.owner[register] = (node + 1) as u32;
        let count = registers::held(&self.allocator.owner);
        self.allocator.most = self.allocator.most.max(count);
    }

    // A node, which a register holds, leaves it.
    #[tactic(auto, unfolding(crate::specs::Desk::evicted, crate::specs::Desk::spilt, crate::specs::Desk::emitted))]
    fn evict(&mut self, frame: Frame, node: usize, register: usize)
        requires wide { Wide frame self.old.work.now × ((node < frame.nodes) × ((self.old.allocator.freed ≤ frame.nodes) × (self.old.allocator.slots < 1048576))) }
        requires steps_in_bounds { (2 * (self.old.allocator.steps + 1) ≤ length self.old.steps.now) × (register ≤ 16) }
        ensures done { the_desk self.new ≡ evicted frame node register (the_desk self.old) }
        ensures same_tables { KeepsTables self.old self.new }
    {
        let at = frame.holder_at(node);
        if self.reloadable(frame, node) {
            self.work[at] = 0;
            return;
        }
        self.spill(frame, node, register);
        self.work[at] = 0;
    }

    // A register for a node: a free one, else an unlocked one that is emptied.
    #[tactic(auto, unfolding(crate::specs::Desk::taken, crate::specs::Desk::taken_from))]
    pub fn take(&mut self, frame: Frame, locked: &[usize], node: usize) -> Option<usize>
        requires wide { Wide frame self.old.work.now × ((node < frame.nodes) × ((self.old.allocator.freed ≤ frame.nodes) × (self.old.allocator.slots < 1048576))) }
        requires steps_in_bounds { (2 * (self.old.allocator.steps + 1) ≤ length self.old.steps.now) × Owners frame self.old.allocator.owner }
        requires locks { length locked.now ≤ 2 }
        ensures done { choice result self.new ≡ taken frame (lock locked.now 0) (lock locked.now 1) node (the_desk self.old) }
        ensures register { IfSome result (λ r. r < 16) }
        ensures same_tables { KeepsTables self.old self.new }
    {
        if let Some(free) = registers::free_register(&self.allocator.owner, frame.mask) {
            self.settle(frame, node, free);
            return Some(free);
        }
        let full = self.victim(frame, locked)?;
        let old = steps::option_value(self.allocator.owner[full]);
        self.evict(frame, old as usize, full);
        self.settle(frame, node, full);
        Some(full)
    }
}
