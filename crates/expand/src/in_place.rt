// The nodes of a block into a table that holds the map at its start, from the last node to the first.
ghost use Rattle.std.specs.Prelude.{◌≡◌, cond, ◌++◌, ◌+◌, ◌*◌, ◌/◌, ◌≤◌, length, get_or, drop};
ghost use Rattle.block.specs.Kinds.{length_of};
ghost use Rattle.expand.specs.Expansion as E;
ghost use Rattle.expand.specs.Nodes.{words_of};
ghost use Rattle.expand.specs.InPlace.{same, Ready, AllReady};
ghost use Rattle.expand.specs.Writes.{write};

use crate::macros;
use block::{Kind, kinds};

// A node of a kind at position k, whose operands are mapped already: its three words one by one, as the definition `expand_as` has them.
fn write_node(table: &mut [u32], k: u32, kind: Kind, code: u32, first: u32, second: u32, steps: u32)
    requires { (k + length_of steps kind ≤ 65536) × (3 * (k + length_of steps kind) ≤ length table.old) }
    ensures { table.new ≡ write table.old k (E.expand_as steps kind same k code first second) }
{
    match kind {
        Kind::Divide => macros::divide(table, k, first, second, kinds::RECIP_STEPS),
        Kind::Recip => macros::recip(table, k, first, kinds::RECIP_STEPS),
        Kind::Tanh => macros::tanh(table, k, first, steps),
        Kind::Sigmoid => macros::sigmoid(table, k, first, steps),
        Kind::Source
        | Kind::Constant
        | Kind::Parameter
        | Kind::State
        | Kind::Delay
        | Kind::Binary
        | Kind::Unary
        | Kind::Unknown => macros::put(table, k, code, first, second),
    }
}

// An operand as the table maps it; a word that is no operand stays.
fn mapped_operand(table: &[u32], operand: bool, word: u32) -> u32
    ensures { result ≡ cond operand (get_or table.now word 0) word }
{
    if !operand {
        return word;
    }
    table.get(word as usize).copied().unwrap_or(0)
}

// Node i at position k.
fn expand_node(nodes: &[u32], table: &mut [u32], i: usize, k: u32, steps: u32)
    requires { Ready steps nodes.now table.old i k }
    ensures { table.new ≡ write table.old k (E.expand_node steps nodes.now i) }
{
    let at = 3 * i;
    let code = nodes[at];
    let kind = Kind::from(code);
    let operands = kind.operands();
    let first = mapped_operand(table, 1 <= operands, nodes[at + 1]);
    let second = mapped_operand(table, 2 <= operands, nodes[at + 2]);
    write_node(table, k, kind, code, first, second, steps);
}

// All nodes, from the last to the first.
pub fn expand_nodes(nodes: &[u32], table: &mut [u32], total: usize, steps: u32)
    requires { AllReady steps nodes.now table.old total }
    ensures { table.new ≡ words_of (E.expand_to steps nodes.now (length nodes.now / 3)) ++ drop (3 * total) table.old }
{
    let mut end = total;
    for i in (0..nodes.len() / 3).rev() {
        end -= Kind::from(nodes[3 * i]).length(steps);
        expand_node(nodes, table, i, end as u32, steps);
    }
}
