// What is not read again (codegen.rs, `release`).
ghost use Rattle.std.specs.Prelude.{◌≡◌, ◌<◌};

use crate::{Desk, Frame, Reads};

impl Desk<'_> {
    ghost use Rattle.allocate.specs.Desk.{the_desk, KeepsTables, dropped_register, dropped_slot, released, released_if, released_both};
    ghost use Rattle.allocate.specs.Ready.{ReadyAt};

    // A node's register, if it has one, is nobody's.
    #[tactic(auto, unfolding(crate::specs::Desk::dropped_register))]
    fn drop_register(&mut self, frame: Frame, node: usize)
        requires { ReadyAt frame (the_desk self.old) × (node < frame.nodes) }
        ensures done { the_desk self.new ≡ dropped_register frame node (the_desk self.old) }
        ensures same_tables { KeepsTables self.old self.new }
    {
        let at = frame.holder_at(node);
        let holder = self.work[at];
        if holder == 0 {
            return;
        }
        self.work[at] = 0;
        let register = (holder - 1) as usize;
        self.allocator.owner[register] = 0;
    }

    // A node's slot, if it has one, is free again; hoisted values' own never.
    #[tactic(auto, unfolding(crate::specs::Desk::dropped_slot))]
    fn drop_slot(&mut self, frame: Frame, node: usize)
        requires { ReadyAt frame (the_desk self.old) × (node < frame.nodes) }
        ensures done { the_desk self.new ≡ dropped_slot frame node (the_desk self.old) }
        ensures same_tables { KeepsTables self.old self.new }
    {
        let at = frame.spilled_at(node);
        let slot = self.work[at];
        if slot == 0 {
            return;
        }
        self.work[at] = 0;
        if slot <= frame.fixed {
            return;
        }
        let freed = self.allocator.freed;
        let top = frame.freed_at(freed);
        self.work[top] = slot;
        self.allocator.freed = freed + 1;
    }

    #[tactic(auto, unfolding(crate::specs::Desk::released))]
    fn release(&mut self, frame: Frame, node: usize)
        requires { ReadyAt frame (the_desk self.old) × (node < frame.nodes) }
        ensures done { the_desk self.new ≡ released frame node (the_desk self.old) }
        ensures same_tables { KeepsTables self.old self.new }
    {
        self.drop_register(frame, node);
        self.drop_slot(frame, node);
    }

    // A value that no later task reads is released.
    #[tactic(auto, unfolding(crate::specs::Desk::released_if))]
    pub fn release_if(&mut self, frame: Frame, node: usize)
        requires { ReadyAt frame (the_desk self.old) × (node < frame.nodes) }
        ensures done { the_desk self.new ≡ released_if frame node (the_desk self.old) }
        ensures same_tables { KeepsTables self.old self.new }
    {
        let at = frame.next_at(node);
        if self.work[at] == 0 {
            self.release(frame, node);
        }
    }

    // The first operand's slot is freed first, so the second's is used again first.
    #[tactic(auto, unfolding(crate::specs::Desk::released_both))]
    pub fn release_both(&mut self, frame: Frame, reads: Reads)
        requires { ReadyAt frame (the_desk self.old) × ((reads.first < frame.nodes) × (reads.second < frame.nodes)) }
        ensures done { the_desk self.new ≡ released_both frame reads.first reads.second (the_desk self.old) }
        ensures same_tables { KeepsTables self.old self.new }
    {
        self.release_if(frame, reads.first);
        self.release_if(frame, reads.second);
    }
}
