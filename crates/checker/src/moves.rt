// The class, and one, of the word that a step moves; 0 where the step may not move it. A word and no Option: what the clauses name (`moved_class`, `loaded_class`,
// `asked`, .. of specs/Walk.antt) is such a word, and so is what the work table holds. Node codes are the words of document 01 that the nodes hold: the index is
// asked by them (`find` of classes/specs/Classes.antt). `IsReady` stands in the contracts and is no ghost field: it has the depths of the index's cells, so it is no
// proposition, which a ghost field must be.
ghost use Rattle.std.specs.Prelude.{◌≡◌, suc, ◌<◌};
ghost use Rattle.checker.specs.Walk.{register, fetched, unless_stored, loaded_class, result_of_two, result_of_one, computed_class, asked, moved_class};
ghost use Rattle.checker.specs.Table.{held_of};
ghost use Rattle.checker.specs.Listing.{the_graph, IsReady};

use crate::{Listing, table};
use classes::Keys;
use kernel::{Instruction, Source, Step};

// "a load's source is some node's": the node's code and index.
#[tactic(auto, unfolding(crate::specs::Walk::fetched))]
fn fetched(list: &Listing<'_>, work: &[u32], code: u32, index: u32) -> u32
    requires { IsReady list.now work.now × (code < 32) }
    ensures { result ≡ fetched (the_graph list.now) code index }
{
    let keys = Keys {
        code,
        first: index,
        second: 0,
    };
    classes::lookup(list.nodes, work, list.terms.count, keys)
}

// ".. and not loaded afterwards"
#[tactic(auto, unfolding(crate::specs::Walk::unless_stored))]
fn unless_stored(stored: u32, class: u32) -> u32
    ensures { result ≡ unless_stored stored class }
{
    if stored == 0 { class } else { 0 }
}

fn loaded_class(list: &Listing<'_>, work: &[u32], source: Source) -> u32
    requires { IsReady list.now work.now }
    ensures { result ≡ loaded_class (the_graph list.now) (held_of list.now.terms work.now) source }
{
    match source {
        Source::Audio => fetched(list, work, 0, 0),
        Source::Network => fetched(list, work, 17, 0),
        Source::Parameter { index } => fetched(list, work, 2, index),
        Source::State { index } => unless_stored(
            table::state_at(list.terms, work, index),
            fetched(list, work, 3, index),
        ),
        Source::Delay { index } => unless_stored(
            table::delay_at(list.terms, work, index),
            fetched(list, work, 4, index),
        ),
        Source::Control { slot } => table::control_at(list.terms, work, slot),
    }
}

// The result of an operation on two registers, of the node's code. "a compute .. reads filled registers"
fn result_of_two(list: &Listing<'_>, work: &[u32], code: u32, lhs: u32, rhs: u32) -> u32
    requires { IsReady list.now work.now × (code < 32) }
    ensures { result ≡ result_of_two (the_graph list.now) code (register (held_of list.now.terms work.now) lhs) (register (held_of list.now.terms work.now) rhs) }
{
    let x = table::register_at(list.terms, work, lhs);
    let y = table::register_at(list.terms, work, rhs);
    if x == 0 || y == 0 {
        return 0;
    }
    let keys = Keys {
        code,
        first: x - 1,
        second: y - 1,
    };
    classes::lookup(list.nodes, work, list.terms.count, keys)
}

fn result_of_one(list: &Listing<'_>, work: &[u32], code: u32, source: u32) -> u32
    requires { IsReady list.now work.now × (code < 32) }
    ensures { result ≡ result_of_one (the_graph list.now) code (register (held_of list.now.terms work.now) source) }
{
    let x = table::register_at(list.terms, work, source);
    if x == 0 {
        return 0;
    }
    fetched(list, work, code, x - 1)
}

#[tactic(auto, unfolding(crate::specs::Walk::fetched))]
fn computed_class(list: &Listing<'_>, work: &[u32], instruction: Instruction) -> u32
    requires { IsReady list.now work.now }
    ensures { result ≡ computed_class (the_graph list.now) (held_of list.now.terms work.now) instruction }
{
    match instruction {
        Instruction::Immediate { value, .. } => fetched(list, work, 1, value),
        Instruction::Add { lhs, rhs, .. } => result_of_two(list, work, 5, lhs, rhs),
        Instruction::Sub { lhs, rhs, .. } => result_of_two(list, work, 6, lhs, rhs),
        Instruction::Mul { lhs, rhs, .. } => result_of_two(list, work, 7, lhs, rhs),
        Instruction::Min { lhs, rhs, .. } => result_of_two(list, work, 8, lhs, rhs),
        Instruction::Max { lhs, rhs, .. } => result_of_two(list, work, 9, lhs, rhs),
        Instruction::IntegerSub { lhs, rhs, .. } => result_of_two(list, work, 10, lhs, rhs),
        Instruction::Neg { src, .. } => result_of_one(list, work, 12, src),
        Instruction::Abs { src, .. } => result_of_one(list, work, 13, src),
    }
}

// What is stored where a node's class is asked for.
fn asked_node(list: &Listing<'_>, work: &[u32], node: u32, class: u32) -> u32
    requires { IsReady list.now work.now }
    ensures { result ≡ asked (the_graph list.now) (suc node) class }
{
    let own = table::class_at(list.terms, work, node);
    if class != 0 && class - 1 == own {
        class
    } else {
        0
    }
}

// The same where an update asks: 0, or a node's number and one.
fn asked(list: &Listing<'_>, work: &[u32], update: u32, class: u32) -> u32
    requires { IsReady list.now work.now }
    ensures { result ≡ asked (the_graph list.now) update class }
{
    if update == 0 {
        return 0;
    }
    asked_node(list, work, update - 1, class)
}

// What a store to a state or a delay moves: "each state and delay with an update is stored once, with that node's class"
fn stored_class(list: &Listing<'_>, work: &[u32], stored: u32, update: u32, source: u32) -> u32
    requires { IsReady list.now work.now }
    ensures { result ≡ unless_stored stored (asked (the_graph list.now) update (register (held_of list.now.terms work.now) source)) }
{
    let class = table::register_at(list.terms, work, source);
    unless_stored(stored, asked(list, work, update, class))
}

pub fn moved_class(list: &Listing<'_>, work: &[u32], step: Step) -> u32
    requires { IsReady list.now work.now }
    ensures { result ≡ moved_class (the_graph list.now) list.now.instructions.now (held_of list.now.terms work.now) step }
{
    let terms = list.terms;
    match step {
        Step::Load { source, .. } => loaded_class(list, work, source),
        Step::Compute { instruction } => {
            let Some(operation) = table::instruction_at(list.instructions, instruction) else {
                return 0;
            };
            computed_class(list, work, operation)
        }
        // An arm of its own, and not one with the control store: the edit refuses_spills is of it alone.
        Step::Spill { register, .. } => table::register_at(terms, work, register),
        Step::Reload { slot, .. } => table::spill_at(terms, work, slot),
        Step::StoreState { state, register } => {
            let update = table::word_at(list.updates, state);
            let stored = table::state_at(terms, work, state);
            stored_class(list, work, stored, update, register)
        }
        Step::StoreDelay { delay, register } => {
            let update = table::word_at(list.stores, delay);
            let stored = table::delay_at(terms, work, delay);
            stored_class(list, work, stored, update, register)
        }
        Step::StoreOutput { register } => {
            let class = table::register_at(terms, work, register);
            asked_node(list, work, terms.output, class)
        }
        Step::StoreControl { register, .. } => table::register_at(terms, work, register),
    }
}
