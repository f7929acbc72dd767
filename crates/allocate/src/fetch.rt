// An operand in a register (codegen.rs, `fetch`).
ghost use Rattle.std.specs.Prelude.{◌≡◌, ◌+◌, ◌*◌, ◌<◌, ◌≤◌, length, IfSome};
ghost use Rattle.allocate.specs.Layout.{Wide};
ghost use Rattle.allocate.specs.Registers.{lock};
ghost use Rattle.allocate.specs.Desk.{control_supply, sample_supply, reload_code};

use crate::{Access, Desk, Frame, steps};
use kernel::Instruction;

// The code and index of what the control phase loads; plan's `control_source` says the kind alone, and a match on that kind would say each code once more.
#[tactic(auto, unfolding(crate::specs::Desk::control_supply))]
fn control_supply(code: u32, word: u32) -> Access
    ensures { result ≡ control_supply code word }
{
    match code {
        1 => Access {
            code: 7,
            index: word,
        },
        2 => Access {
            code: 3,
            index: word,
        },
        _ => Access { code: 0, index: 0 },
    }
}

// .. and of what the sample phase loads, of a node that has no control slot.
#[tactic(auto, unfolding(crate::specs::Desk::sample_supply))]
fn sample_supply(code: u32, word: u32) -> Access
    ensures { result ≡ sample_supply code word }
{
    match code {
        0 => Access { code: 1, index: 0 },
        1 => Access {
            code: 7,
            index: word,
        },
        2 => Access {
            code: 3,
            index: word,
        },
        3 => Access {
            code: 4,
            index: word,
        },
        4 => Access {
            code: 5,
            index: word,
        },
        17 => Access { code: 2, index: 0 },
        _ => Access { code: 0, index: 0 },
    }
}

#[tactic(auto, unfolding(crate::specs::Desk::reload_code))]
fn reload_code(frame: Frame) -> u32
    ensures code { result ≡ reload_code frame }
    ensures small { result < 16 }
{
    if frame.control { 6 } else { 9 }
}

impl Desk<'_> {
    ghost use Rattle.allocate.specs.Desk.{the_desk, KeepsTables, choice, supply_of, brought, loaded, fetched};
    ghost use Rattle.allocate.specs.Ready.{ReadyAt, RoomAt};

    // Where a node's value comes from in this phase.
    #[tactic(auto, unfolding(crate::specs::Desk::supply_of))]
    fn supply_of(&self, nodes: &[u32], frame: Frame, node: usize) -> Access
        requires { Wide frame self.now.work.now × ((node < frame.nodes) × (3 * frame.nodes ≤ length nodes.now)) }
        ensures { result ≡ supply_of frame nodes.now self.now.work.now node }
    {
        let at = 3 * node;
        let code = nodes[at];
        let word = nodes[at + 1];
        if frame.control {
            return control_supply(code, word);
        }
        let place = frame.slot_at(node);
        let slot = self.work[place];
        if slot == 0 {
            return sample_supply(code, word);
        }
        Access {
            code: 6,
            index: slot - 1,
        }
    }

    // The step or the instruction that brings a value from there.
    #[tactic(auto, unfolding(crate::specs::Desk::brought))]
    fn bring(&mut self, from: Access, register: usize)
        requires room { RoomAt 1 (the_desk self.old) }
        requires small { (from.code < 16) × (register ≤ 16) }
        ensures done { the_desk self.new ≡ brought from register (the_desk self.old) }
        ensures same_tables { KeepsTables self.old self.new }
    {
        if from.code == 7 {
            let dst = register as u32;
            let value = from.index;
            self.emit_instruction(Instruction::Immediate { dst, value });
        } else {
            self.emit(from.code, register, from.index);
        }
    }

    // A node's value comes into a register: from where it comes from where it is fresh, else from its slot.
    #[tactic(auto, unfolding(crate::specs::Desk::loaded))]
    fn load(&mut self, nodes: &[u32], frame: Frame, node: usize, register: usize)
        requires wide { Wide frame self.old.work.now × ((node < frame.nodes) × ((3 * frame.nodes ≤ length nodes.now) × (register ≤ 16))) }
        requires room { RoomAt 1 (the_desk self.old) }
        ensures done { the_desk self.new ≡ loaded frame nodes.now node register (the_desk self.old) }
        ensures same_tables { KeepsTables self.old self.new }
    {
        let fresh = frame.fresh_at(node);
        if self.work[fresh] == 0 {
            let spilled = frame.spilled_at(node);
            let code = reload_code(frame);
            let slot = steps::option_value(self.work[spilled]);
            self.emit(code, register, slot);
            return;
        }
        let from = self.supply_of(nodes, frame, node);
        self.bring(from, register);
    }

    // A node in a register: the one that holds it, else one that is taken and filled.
    #[tactic(auto, unfolding(crate::specs::Desk::fetched, crate::specs::Desk::filled))]
    pub fn fetch(
        &mut self,
        nodes: &[u32],
        frame: Frame,
        locked: &[usize],
        node: usize,
    ) -> Option<usize>
        requires ready { ReadyAt frame (the_desk self.old) × ((node < frame.nodes) × (3 * frame.nodes ≤ length nodes.now)) }
        requires room { RoomAt 2 (the_desk self.old) }
        requires locks { length locked.now ≤ 2 }
        ensures done { choice result self.new ≡ fetched frame nodes.now (lock locked.now 0) (lock locked.now 1) node (the_desk self.old) }
        ensures register { IfSome result (λ r. r < 16) }
        ensures same_tables { KeepsTables self.old self.new }
    {
        let at = frame.holder_at(node);
        let holder = self.work[at];
        if holder != 0 {
            return Some((holder - 1) as usize);
        }
        let register = self.take(frame, locked, node)?;
        self.load(nodes, frame, node, register);
        Some(register)
    }
}
