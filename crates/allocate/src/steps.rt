// Steps and instructions at the end of their tables.
ghost use Rattle.std.specs.Prelude.{◌≡◌, ◌+◌, ◌*◌, ◌-◌, ◌<◌, ◌≤◌, length};
ghost use Rattle.allocate.specs.Desk.{pair};

use crate::Desk;
use kernel::Instruction;

// An option's value: its word is 0, or the value and one, since options in lent tables are such words (document 01, "What must change shape").
pub fn option_value(option: u32) -> u32
    ensures { result ≡ option - 1 }
{
    option.saturating_sub(1)
}

fn write_pair(table: &mut [u32], place: usize, word: u32, index: u32)
    requires { place + 2 ≤ length table.old }
    ensures { table.new ≡ pair table.old place word index }
{
    table[place] = word;
    table[place + 1] = index;
}

impl Desk<'_> {
    ghost use Rattle.allocate.specs.Desk.{the_desk, KeepsTables, emitted, operated};

    // A step more, by the code of its word and no `Step`: `emitted` takes codes, also that of a value that comes from nowhere (0), which no step has.
    #[tactic(auto, unfolding(crate::specs::Desk::emitted))]
    pub fn emit(&mut self, code: u32, register: usize, index: u32)
        requires room { 2 * (self.old.allocator.steps + 1) ≤ length self.old.steps.now }
        requires small { (code < 16) × (register ≤ 16) }
        ensures done { the_desk self.new ≡ emitted code register index (the_desk self.old) }
        ensures same_tables { KeepsTables self.old self.new }
    {
        let count = self.allocator.steps;
        write_pair(self.steps, 2 * count, code * 16 + register as u32, index);
        self.allocator.steps = count + 1;
    }

    // An instruction more, and the step that computes it.
    #[tactic(auto, unfolding(crate::specs::Desk::operated, crate::specs::Desk::emitted))]
    pub fn emit_instruction(&mut self, instruction: Instruction)
        requires steps { 2 * (self.old.allocator.steps + 1) ≤ length self.old.steps.now }
        requires instructions { 2 * (self.old.allocator.instructions + 1) ≤ length self.old.instructions.now }
        requires few { self.old.allocator.instructions < 1048576 }
        ensures done { the_desk self.new ≡ operated instruction (the_desk self.old) }
        ensures same_tables { KeepsTables self.old self.new }
    {
        let count = self.allocator.instructions;
        let word = instruction.word();
        let immediate = instruction.immediate();
        write_pair(self.instructions, 2 * count, word, immediate);
        self.emit(7, 0, count as u32);
        self.allocator.instructions = count + 1;
    }
}
