// The regions of the work table behind the index of the classes: reads and stores at a place that is tested first, so that they need nothing of the step.
// Regions of one lent table, with a place where each begins, and no vectors or arrays: 01's rule, no heap, and the caller's counts set their sizes. That there
// is room for them stands in each contract, and in no ghost field: the walk writes the table between reads, so a struct of both would be made anew at each.
ghost use Rattle.std.specs.Prelude.{◌≡◌, ◌+◌, ◌*◌, ◌^◌, ◌≤◌, ◌<◌, length, get_or};
ghost use Rattle.tables.specs.Parts.{part};
ghost use Rattle.kernel.specs.Instructions.{instruction_at};
ghost use Rattle.kernel.specs.Lists.{sizes};
ghost use Rattle.checker.specs.Walk.{register};
ghost use Rattle.checker.specs.Table.{registers_at, output_at, states_at, delays_at, control_at, spills_at, table_end, region, held_of, put_in, table_after};

use kernel::{Instruction, Kernel, Sizes, Step};

// What a list is checked by, besides tables: the counts of expanded nodes, parameters, states and delays, the output's node, the mask and the kernel.
#[derive(Clone, Copy)]
pub struct Terms {
    pub count: usize,
    pub parameters: usize,
    pub states: usize,
    pub delays: usize,
    pub output: u32,
    pub mask: u32,
    pub kernel: Kernel,
}

// A region of the work table: so many words from `base` on.
#[derive(Clone, Copy)]
pub struct Region {
    pub base: usize,
    pub count: usize,
}

impl Region {
    // Its words.
    pub fn words(self, work: &[u32]) -> &[u32]
        requires { self.base + self.count ≤ length work.now }
        ensures { result.now ≡ part self.base self.count work.now }
    {
        &work[self.base..self.base + self.count]
    }

    // A word at place i; past the region nothing is stored.
    #[tactic(auto, unfolding(crate::specs::Table::put_in))]
    fn put(self, work: &mut [u32], i: u32, word: u32)
        requires { self.base + self.count ≤ length work.old }
        ensures { work.new ≡ put_in self.base self.count i word work.old }
    {
        if (i as usize) < self.count {
            work[self.base + i as usize] = word;
        }
    }
}

// The regions, one behind the other, and what the steps of a list index.
impl Terms {
    pub fn sizes(self) -> Sizes
        ensures { result ≡ sizes self.parameters self.states self.delays self.kernel }
    {
        Sizes::new(self.parameters, self.states, self.delays, self.kernel)
    }

    pub fn registers(self) -> Region
        requires { table_end self < 2 ^ 64 }
        ensures { result ≡ region (registers_at self) 16 }
    {
        Region {
            base: 7 * self.count + 32,
            count: 16,
        }
    }

    // One word, 1 where the output has been stored.
    pub fn output_flag(self) -> Region
        requires { table_end self < 2 ^ 64 }
        ensures { result ≡ region (output_at self) 1 }
    {
        Region {
            base: 7 * self.count + 48,
            count: 1,
        }
    }

    pub fn state_flags(self) -> Region
        requires { table_end self < 2 ^ 64 }
        ensures { result ≡ region (states_at self) self.states }
    {
        Region {
            base: 7 * self.count + 49,
            count: self.states,
        }
    }

    pub fn delay_flags(self) -> Region
        requires { table_end self < 2 ^ 64 }
        ensures { result ≡ region (delays_at self) self.delays }
    {
        let before = self.state_flags();
        Region {
            base: before.base + before.count,
            count: self.delays,
        }
    }

    pub fn control_slots(self) -> Region
        requires { table_end self < 2 ^ 64 }
        ensures { result ≡ region (control_at self) self.kernel.slots }
    {
        let before = self.delay_flags();
        Region {
            base: before.base + before.count,
            count: self.kernel.slots as usize,
        }
    }

    pub fn spill_slots(self) -> Region
        requires { table_end self < 2 ^ 64 }
        ensures { result ≡ region (spills_at self) self.kernel.spills }
    {
        let before = self.control_slots();
        Region {
            base: before.base + before.count,
            count: self.kernel.spills as usize,
        }
    }
}

// A word of a table, 0 past its end. The machine's `read` says the same of sixteen registers by value.
pub fn word_at(table: &[u32], i: u32) -> u32
    ensures { result ≡ get_or table.now i 0 }
{
    table.get(i as usize).copied().unwrap_or(0)
}

// The class of a node.
pub fn class_at(terms: Terms, work: &[u32], node: u32) -> u32
    requires { table_end terms ≤ length work.now }
    ensures { result ≡ get_or (part 0 terms.count work.now) node 0 }
{
    let classes = Region {
        base: 0,
        count: terms.count,
    };
    word_at(classes.words(work), node)
}

// This and the readers behind it are one line each, and each states another field of what is held (`Held`).
#[tactic(auto, unfolding(crate::specs::Table::held_of))]
pub fn register_at(terms: Terms, work: &[u32], index: u32) -> u32
    requires { table_end terms ≤ length work.now }
    ensures { result ≡ register (held_of terms work.now) index }
{
    word_at(terms.registers().words(work), index)
}

#[tactic(auto, unfolding(crate::specs::Table::held_of))]
pub fn output_at(terms: Terms, work: &[u32]) -> u32
    requires { table_end terms ≤ length work.now }
    ensures { result ≡ (held_of terms work.now).output_stored }
{
    word_at(terms.output_flag().words(work), 0)
}

#[tactic(auto, unfolding(crate::specs::Table::held_of))]
pub fn state_at(terms: Terms, work: &[u32], state: u32) -> u32
    requires { table_end terms ≤ length work.now }
    ensures { result ≡ get_or (held_of terms work.now).states_stored state 0 }
{
    word_at(terms.state_flags().words(work), state)
}

#[tactic(auto, unfolding(crate::specs::Table::held_of))]
pub fn delay_at(terms: Terms, work: &[u32], delay: u32) -> u32
    requires { table_end terms ≤ length work.now }
    ensures { result ≡ get_or (held_of terms work.now).delays_stored delay 0 }
{
    word_at(terms.delay_flags().words(work), delay)
}

#[tactic(auto, unfolding(crate::specs::Table::held_of))]
pub fn control_at(terms: Terms, work: &[u32], slot: u32) -> u32
    requires { table_end terms ≤ length work.now }
    ensures { result ≡ get_or (held_of terms work.now).control slot 0 }
{
    word_at(terms.control_slots().words(work), slot)
}

#[tactic(auto, unfolding(crate::specs::Table::held_of))]
pub fn spill_at(terms: Terms, work: &[u32], slot: u32) -> u32
    requires { table_end terms ≤ length work.now }
    ensures { result ≡ get_or (held_of terms work.now).spills slot 0 }
{
    word_at(terms.spill_slots().words(work), slot)
}

// Instruction i of a table.
pub fn instruction_at(instructions: &[u32], i: u32) -> Option<Instruction>
    ensures { result ≡ instruction_at instructions.now i }
{
    let at = 2 * (i as usize);
    let word = instructions.get(at).copied().unwrap_or(0);
    let immediate = instructions.get(at + 1).copied().unwrap_or(0);
    Instruction::from_words(word, immediate)
}

// The work table after a step that moved this class.
pub fn after_move(terms: Terms, instructions: &[u32], work: &mut [u32], step: Step, class: u32)
    requires { table_end terms ≤ length work.old }
    ensures { work.new ≡ table_after terms instructions.now work.old step class }
{
    match step {
        Step::Load { register, .. } | Step::Reload { register, .. } => {
            terms.registers().put(work, register, class);
        }
        Step::Compute { instruction } => {
            if let Some(instruction) = instruction_at(instructions, instruction) {
                terms
                    .registers()
                    .put(work, instruction.destination(), class);
            }
        }
        Step::Spill { slot, .. } => terms.spill_slots().put(work, slot, class),
        Step::StoreState { state, .. } => terms.state_flags().put(work, state, 1),
        Step::StoreDelay { delay, .. } => terms.delay_flags().put(work, delay, 1),
        Step::StoreOutput { .. } => terms.output_flag().put(work, 0, 1),
        Step::StoreControl { slot, .. } => terms.control_slots().put(work, slot, class),
    }
}
