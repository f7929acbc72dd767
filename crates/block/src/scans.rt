// The loops over a table: each looks at its whole records, in order.
ghost use Rattle.std.specs.Prelude.{◌≡◌, Bool, ℕ, ◌/◌, ◌≤◌, ◌<◌, length};
ghost use Rattle.tables.specs.Loops.{some};
ghost use Rattle.answers.specs.Numbers.{answer_of};
ghost use Rattle.answers.specs.Order.{in_order};
ghost use Rattle.block.specs.Block.{code, first, second};
ghost use Rattle.block.specs.Limits.{most_nodes, most_parameters, most_states, most_delays};
ghost use Rattle.block.specs.Validation.{malformed_node, reads_network, node_needs_two, parameter_answer, words_answer, node_answer, state_answer, delay_answer};

use crate::{Counts, Kind, limits, rules};
use answers::Refusal;

// Whether some node passes a test of its three words.
fn some_node<F: Fn(u32, u32, u32) -> bool>(nodes: &[u32], test: F) -> bool
    requires { F.IsAlwaysCallable test }
    ensures { (passes : ℕ → Bool)
        → ((i : ℕ) (b : Bool) → F.post test (code nodes.now i) (first nodes.now i) (second nodes.now i) b → b ≡ passes i)
        → result ≡ some passes (length nodes.now / 3) }
{
    // A `for`: with `any` over the range a goal is left that the check does not close, since the clause speaks of any test.
    for i in 0..nodes.len() / 3 {
        let at = 3 * i;
        if test(nodes[at], nodes[at + 1], nodes[at + 2]) {
            return true;
        }
    }
    false
}

pub fn some_malformed(nodes: &[u32]) -> bool
    ensures { result ≡ some (malformed_node nodes.now) (length nodes.now / 3) }
{
    some_node(
        nodes,
        |code, first, second| rules::malformed_words(code.into(), first, second),
    )
}

pub fn some_network(nodes: &[u32]) -> bool
    ensures { result ≡ some (reads_network nodes.now) (length nodes.now / 3) }
{
    some_node(nodes, |code, _, _| code == limits::NETWORK_CODE)
}

pub fn some_needs_two(nodes: &[u32]) -> bool
    ensures { result ≡ some (node_needs_two nodes.now) (length nodes.now / 3) }
{
    some_node(nodes, |code, _, _| limits::code_needs_two(code))
}

// The first parameter that 7 is given for.
pub fn first_bad_parameter(parameters: &[u32]) -> Result<(), Refusal>
    requires { length parameters.now / 3 ≤ most_parameters }
    ensures { answer_of result ≡ in_order (parameter_answer parameters.now) (length parameters.now / 3) }
{
    for i in 0..parameters.len() / 3 {
        let at = 3 * i;
        if !words::span_is_valid(parameters[at], parameters[at + 1], parameters[at + 2]) {
            let index = i as u32;
            return Err(Refusal::BadParameter { index });
        }
    }
    Ok(())
}

// 9 before 10 for one node.
fn judge_node(
    kind: Kind,
    counts: Counts,
    index: u32,
    first: u32,
    second: u32,
) -> Result<(), Refusal>
    ensures { answer_of result ≡ words_answer kind counts index first second }
{
    if rules::operand_not_below(kind.operands(), index, first, second) {
        return Err(Refusal::BadOperand { index });
    }
    if rules::bad_content(kind, counts, first) {
        return Err(Refusal::BadNode { index });
    }
    Ok(())
}

// The first node that 9 or 10 is given for.
pub fn first_bad_node(nodes: &[u32], counts: Counts) -> Result<(), Refusal>
    requires { length nodes.now / 3 ≤ most_nodes }
    ensures { answer_of result ≡ in_order (node_answer nodes.now counts) (length nodes.now / 3) }
{
    for i in 0..nodes.len() / 3 {
        let at = 3 * i;
        judge_node(
            nodes[at].into(),
            counts,
            i as u32,
            nodes[at + 1],
            nodes[at + 2],
        )?;
    }
    Ok(())
}

// The first state that 11 is given for.
pub fn first_bad_state(states: &[u32], nodes: usize) -> Result<(), Refusal>
    requires { length states.now / 2 ≤ most_states }
    ensures { answer_of result ≡ in_order (state_answer states.now nodes) (length states.now / 2) }
{
    for i in 0..states.len() / 2 {
        let at = 2 * i;
        if rules::bad_state(states[at], states[at + 1], nodes) {
            let index = i as u32;
            return Err(Refusal::BadState { index });
        }
    }
    Ok(())
}

// The first delay that 12 is given for. The total is within its limit before each addition, so no sum wraps.
pub fn first_bad_delay(delays: &[u32], nodes: usize) -> Result<(), Refusal>
    requires { length delays.now / 2 ≤ most_delays }
    ensures { answer_of result ≡ in_order (delay_answer delays.now nodes) (length delays.now / 2) }
{
    let mut total: usize = 0;
    for i in 0..delays.len() / 2 {
        let at = 2 * i;
        let next = total + delays[at] as usize;
        if rules::bad_delay(delays[at], delays[at + 1], next, nodes) {
            let index = i as u32;
            return Err(Refusal::BadDelay { index });
        }
        total = next;
    }
    Ok(())
}
