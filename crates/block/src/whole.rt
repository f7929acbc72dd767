// What the block as a whole may be refused for: the tests of answers 1, 4, 5 and 6.
ghost use Rattle.std.specs.Prelude.{◌≡◌, ◌&&◌, ◌||◌, ◌/◌, length, eqb};
ghost use Rattle.tables.specs.Loops.{some};
ghost use Rattle.block.specs.Block.{the_block};
ghost use Rattle.block.specs.Limits.{mono, category_needs_two};
ghost use Rattle.block.specs.Validation.{malformed, reads_network, node_needs_two, too_large};

use crate::{Block, Header, kinds, limits, rules, scans};

#[tactic(auto, unfolding(crate::specs::Validation::malformed))]
pub fn malformed(block: &Block<'_>) -> bool
    ensures { result ≡ malformed (the_block block.now) }
{
    block.parameters.len() % 3 != 0
        || block.states.len() % 2 != 0
        || block.delays.len() % 2 != 0
        || block.nodes.len() % 3 != 0
        || rules::malformed_header(block.header)
        || scans::some_malformed(block.nodes)
}

pub fn network_flag_clear(header: Header, nodes: &[u32]) -> bool
    ensures { result ≡ (eqb header.network 0 && some (reads_network nodes.now) (length nodes.now / 3)) }
{
    header.network == 0 && scans::some_network(nodes)
}

pub fn needs_version_two(header: Header, nodes: &[u32]) -> bool
    ensures { result ≡ (eqb header.version 1 && (eqb header.channels mono || category_needs_two header.category || some (node_needs_two nodes.now) (length nodes.now / 3))) }
{
    header.version == 1
        && (header.channels == limits::MONO
            || limits::category_needs_two(header.category)
            || scans::some_needs_two(nodes))
}

#[tactic(auto, unfolding(crate::specs::Validation::too_large, crate::specs::Validation::expanded_length))]
pub fn too_large(block: &Block<'_>) -> bool
    ensures { result ≡ too_large (the_block block.now) }
{
    let counts = block.counts();
    limits::MOST_NODES < kinds::expanded_length(block.nodes)
        || limits::MOST_PARAMETERS < counts.parameters
        || limits::MOST_STATES < counts.states
        || limits::MOST_DELAYS < counts.delays
}
