// The expansion of a block: every macro node as primitive nodes (document 01, module 2).
#![tactic(auto)]

mod in_place;
mod macros;
pub mod map;
pub mod valid;

ghost use Rattle.std.specs.Prelude.{◌≡◌};
ghost use Rattle.answers.specs.Numbers.{answer_of};
ghost use Rattle.block.specs.Block.{the_block};
ghost use Rattle.expand.specs.Expansion.{outcome, expand_call};
ghost use Rattle.expand.specs.Map.{map_within, map_update_within, mapping, map_call};

use answers::Refusal;
use block::{Block, kinds, limits};

// What an accepted expansion tells besides the table: how many nodes it has and which of them is the output.
#[derive(Clone, Copy)]
pub struct Expanded {
    pub length: u32,
    pub output: u32,
}

// Validates a block and writes its expansion, three words a node, into a lent table: 13 where the table is too short. A refusal leaves the table.
pub fn expand(block: &Block<'_>, table: &mut [u32]) -> Result<Expanded, Refusal>
    ensures { outcome (answer_of result) table.new ≡ expand_call (the_block block.now) table.old }
{
    block.validate()?;
    valid::expand(block, table)
}

// The last expanded node of each node over the table's first words, and true. Where the table has fewer words than there are nodes, or the expansion
// is over the limit, nothing is written and the answer is false. A flag and no Result: `map_call` (docs/PROMISES.md) says true or false and the table, and
// no refusal has a number for it.
pub fn map_nodes(nodes: &[u32], table: &mut [u32]) -> bool
    ensures { mapping result table.new ≡ map_call nodes.now table.old }
{
    if table.len() < nodes.len() / 3 || limits::MOST_NODES < kinds::expanded_length(nodes) {
        return false;
    }
    map::write_map(nodes, table, kinds::TANH_STEPS);
    true
}

// The last expanded node of one node. 65,536 stands for a node past the table, and for a last node that is not below it: no Option, since this promises
// `map_within` (docs/PROMISES.md) and cannot fail.
pub fn mapped_node(nodes: &[u32], node: u32) -> u32
    ensures { result ≡ map_within nodes.now node }
{
    let index = node as usize;
    if nodes.len() / 3 <= index {
        return limits::MOST_NODES as u32;
    }
    let end = 3 * (index + 1);
    (kinds::expanded_length(&nodes[..end]) - 1) as u32
}

// An update through the map: 0 stays none.
pub fn mapped_update(nodes: &[u32], update: u32) -> u32
    ensures { result ≡ map_update_within nodes.now update }
{
    // 0 or a number and one, before and after: a word of the lent tables.
    if update == 0 {
        return 0;
    }
    mapped_node(nodes, update - 1) + 1
}
