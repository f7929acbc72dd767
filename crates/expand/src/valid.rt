// The expansion of a block that its caller has validated: both runs judge the whole call first, and need not validate again. What is
// offered to others is the crate's own `expand`, which asks nothing.
ghost use Rattle.std.specs.Prelude.{◌≡◌};
ghost use Rattle.answers.specs.Numbers.{accepted, answer_of};
ghost use Rattle.block.specs.Block.{the_block};
ghost use Rattle.block.specs.Validation.{validation};
ghost use Rattle.expand.specs.Expansion.{outcome, expand_call};

use crate::{Expanded, in_place, map};
use answers::Refusal;
use block::{Block, kinds};

pub fn expand(block: &Block<'_>, table: &mut [u32]) -> Result<Expanded, Refusal>
    requires { validation (the_block block.now) ≡ accepted tt }
    ensures { outcome (answer_of result) table.new ≡ expand_call (the_block block.now) table.old }
{
    let nodes = block.nodes;
    let total = kinds::expanded_length(nodes);
    if table.len() < 3 * total {
        return Err(Refusal::TableTooShort);
    }
    map::write_map(nodes, table, kinds::TANH_STEPS);
    // The map's word of the output, before the nodes are written over the map.
    let index = block.header.output as usize;
    let output = table[index];
    in_place::expand_nodes(nodes, table, total, kinds::TANH_STEPS);
    Ok(Expanded {
        length: total as u32,
        output,
    })
}
