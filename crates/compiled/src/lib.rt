// Demand 3, last sentence: what compile gives always passes the checker, and runs as the block's graph does. The statements are in specs/, over the definitions
// that the functions promise; `compile_checked` is that statement as a function that a host or a shop can call.
#![tactic(auto)]

ghost use Rattle.std.specs.Prelude.{◌≡◌};
ghost use Rattle.answers.specs.Numbers.{answer_of};
ghost use Rattle.block.specs.Block.{the_block};
ghost use Rattle.compile.specs.Call.{tables, outcome, compile_call};
ghost use Rattle.compiled.specs.Promised.{Promised};

use answers::Refusal;
use block::Block;
use compile::Compiled;

// Compile, with the promise of the whole: no check is run, since none can fail.
pub fn compile_checked(
    block: &Block<'_>,
    mask: u32,
    expansion: &mut [u32],
    steps: &mut [u32],
    instructions: &mut [u32],
    work: &mut [u32],
) -> Result<Compiled, Refusal>
    ensures compiled { outcome (answer_of result) (tables expansion.new steps.new instructions.new work.new) ≡ compile_call (the_block block.now) mask (tables expansion.old steps.old instructions.old work.old) }
    ensures promised { Promised (the_block block.now) mask (outcome (answer_of result) (tables expansion.new steps.new instructions.new work.new)) }
{
    compile::compile(block, mask, expansion, steps, instructions, work)
}
