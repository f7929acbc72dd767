// The map from each node to its last expanded node, by which operands, output and updates are remapped.
ghost use Rattle.std.specs.Prelude.{◌≡◌, ◌/◌, ◌≤◌, ◌<◌, length, take};
ghost use Rattle.block.specs.Kinds.{offset};
ghost use Rattle.expand.specs.MapLaws.{map_over};
ghost use Rattle.expand.specs.Updates.{mapped_word, mapped_updates, Mappable};

use block::Kind;

// The last expanded node of each node, over the table's first words.
pub fn write_map(nodes: &[u32], table: &mut [u32], steps: u32)
    requires { (length nodes.now / 3 ≤ length table.old) × (offset steps nodes.now (length nodes.now / 3) ≤ 65536) }
    ensures { table.new ≡ map_over steps nodes.now (length nodes.now / 3) table.old }
{
    let mut total: usize = 0;
    for i in 0..nodes.len() / 3 {
        total += Kind::from(nodes[3 * i]).length(steps);
        table[i] = (total - 1) as u32;
    }
}

// The update of one state or delay.
fn mapped_update(memories: &[u32], map: &[u32], i: usize) -> u32
    requires { Mappable map.now memories.now × (i < length memories.now / 2) }
    ensures { result ≡ mapped_word map.now memories.now i }
{
    // 0 or a number and one, before and after: a word of the lent tables.
    let update = memories[2 * i + 1] as usize;
    if update == 0 {
        return 0;
    }
    map[update - 1] + 1
}

// The updates of all states, or of all delays: found anew for each sample or store they would cost a sum over the nodes each. No heap: the array has room for
// the most memories that 6 allows, and the words past theirs are not read.
pub fn mapped_updates(memories: &[u32], map: &[u32]) -> [u32; 4096]
    requires { Mappable map.now memories.now }
    ensures { take (length memories.now / 2) result ≡ mapped_updates map.now memories.now }
{
    let mut updates = [0u32; 4096];
    for i in 0..memories.len() / 2 {
        updates[i] = mapped_update(memories, map, i);
    }
    updates
}
