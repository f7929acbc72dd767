// What lives from sample to sample: parameter values, states, one delay area and the cursors of its lines (document 01, module 6).
// Here: set and reset.
#![tactic(auto)]

pub mod lines;
pub mod signals;
pub mod sizes;

ghost use Rattle.std.specs.Prelude.{◌≡◌, ◌/◌, length};
ghost use Rattle.answers.specs.Numbers.{answer_of};
ghost use Rattle.block.specs.Block.{the_block, initial};
ghost use Rattle.tables.specs.Lists.{list_of};
ghost use Rattle.memory.specs.Calls.{set_outcome, set_call, reset_outcome, reset_call};
ghost use Rattle.memory.specs.Lent.{the_memories, KeepsTables};

use answers::Refusal;
use block::Block;
use lines::Memories;

// One parameter's value, where the block is valid and the value in the parameter's range.
pub fn set(block: &Block<'_>, index: u32, value: u32, settings: &mut [u32]) -> Result<(), Refusal>
    ensures { set_outcome (answer_of result) settings.new ≡ set_call (the_block block.now) settings.old index value }
{
    block.validate()?;
    let parameters = block.parameters;
    let count = parameters.len() / 3;
    if settings.len() != count {
        return Err(Refusal::SizesDiffer);
    }
    let i = index as usize;
    if count <= i {
        return Err(Refusal::UnknownParameter);
    }
    if !words::in_range(parameters[3 * i], parameters[3 * i + 1], value) {
        return Err(Refusal::ValueOutOfRange);
    }
    settings[i] = value;
    Ok(())
}

// Every state's initial word.
fn write_initial(states: &[u32], held: &mut [u32])
    requires { length held.old ≡ length states.now / 2 }
    ensures { held.new ≡ list_of (initial states.now) (length held.old) }
{
    // By index: a record is two words of the table.
    for i in 0..held.len() {
        held[i] = states[2 * i];
    }
}

// The memories that a block starts with: initial states, zero cells, zero cursors.
pub fn reset(block: &Block<'_>, memories: &mut Memories<'_>) -> Result<(), Refusal>
    ensures outcome { reset_outcome (answer_of result) (the_memories memories.new) ≡ reset_call (the_block block.now) (the_memories memories.old) }
    ensures same_tables { KeepsTables memories.old memories.new }
{
    block.validate()?;
    if !memories.fit(block) {
        return Err(Refusal::SizesDiffer);
    }
    write_initial(block.states, memories.held);
    memories.area.fill(0);
    memories.cursors.fill(0);
    Ok(())
}
