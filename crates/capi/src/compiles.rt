// The C function of the compiler: a thin call of the crate that does the work.
ghost use Rattle.std.specs.Prelude.{◌≡◌};
ghost use Rattle.block.specs.Block.{block};
ghost use Rattle.compile.specs.Call as Compile;
ghost use Rattle.capi.specs.Crossing.{crossing, header};
ghost use Rattle.capi.specs.Runs.{crossed};
ghost use Rattle.capi.specs.Compiles.{compile_crossing};

use crate::crosses::cross;
use block::{Block, Header};

#[unsafe(no_mangle)]
pub extern "C" fn lichenstitch_compile(
    version: u32,
    category: u32,
    channels: u32,
    network: u32,
    output: u32,
    parameters: &[u32],
    states: &[u32],
    delays: &[u32],
    nodes: &[u32],
    mask: u32,
    expansion: &mut [u32],
    steps: &mut [u32],
    instructions: &mut [u32],
    work: &mut [u32],
    answer: &mut [u32],
) -> u32
    ensures { crossed (crossing result answer.new) (Compile.tables expansion.new steps.new instructions.new work.new)
        ≡ compile_crossing (Compile.compile_call (block (header version category channels network output) parameters.now states.now delays.now nodes.now) mask (Compile.tables expansion.old steps.old instructions.old work.old)) answer.old }
{
    let header = Header {
        version,
        category,
        channels,
        network,
        output,
    };
    let block = Block {
        header,
        parameters,
        states,
        delays,
        nodes,
    };
    let compiled = compile::compile(&block, mask, expansion, steps, instructions, work);
    cross(compiled, answer)
}
