// The walk over the steps of a list: control, then sample, on what the work table holds.
ghost use Rattle.std.specs.Prelude.{◌≡◌, ◌+◌, ◌*◌, ◌≤◌, ◌<◌, length};
ghost use Rattle.tables.specs.Loops.{every};
ghost use Rattle.answers.specs.Numbers.{answer_of};
ghost use Rattle.checker.specs.Walk.{output_only_last, stored_if_asked, walk_answer};
ghost use Rattle.checker.specs.Table.{table_end, held_of};
ghost use Rattle.checker.specs.WalkLaws.{last_in, may_pass, entered_table, fulfilled, misses_nothing, sample_from};
ghost use Rattle.checker.specs.Listing.{the_listing, IsReady, IsFit, IsTaken, IsWalked};

use crate::table::Terms;
use crate::{Listing, mask, moves, table};
use answers::Refusal;
use kernel::{Phase, Step};

// "the last sample step, and no other, has code 12"
fn output_only_last(last: bool, step: Step) -> bool
    ensures { result ≡ output_only_last last step }
{
    match step {
        Step::StoreOutput { .. } => last,
        _ => true,
    }
}

// What does not depend on what is held: the step may run in its phase, its registers lie in the mask, an output store is last.
fn may_pass(terms: Terms, instructions: &[u32], phase: Phase, last: bool, step: Step) -> bool
    requires { 2 * terms.kernel.instructions ≤ length instructions.now }
    ensures { result ≡ may_pass terms instructions.now phase last step }
{
    terms.sizes().step_may_run(instructions, phase, step)
        && mask::step_in_mask(terms.mask, instructions, step)
        && output_only_last(last, step)
}

// One step: where it passes, the work table holds afterwards what it moved.
fn take_step(list: &Listing<'_>, work: &mut [u32], phase: Phase, last: bool, at: usize) -> bool
    requires { IsReady list.now work.old × (2 * at + 1 < length list.now.steps.now) }
    ensures { IsTaken list.now phase last at work.old work.new result }
{
    let words = Step::from_words(list.steps[2 * at], list.steps[2 * at + 1]);
    // Early ends, and no chain of `&&`: each test needs what the one before found, and the class is stored after the last.
    let Some(step) = words else {
        return false;
    };
    if !may_pass(list.terms, list.instructions, phase, last, step) {
        return false;
    }
    let class = moves::moved_class(list, &work[..], step);
    if class == 0 {
        return false;
    }
    table::after_move(list.terms, list.instructions, work, step, class);
    true
}

// Step i of a phase of so many steps is the last sample step.
fn is_last(phase: Phase, count: usize, i: usize) -> bool
    requires { i < count }
    ensures { result ≡ last_in phase count i }
{
    matches!(phase, Phase::Sample) && i + 1 == count
}

// The steps of a phase: so many of the table, from `first` on. "Refusal 19 gives the first failing step's position from 0, control first"
fn walk(
    list: &Listing<'_>,
    work: &mut [u32],
    phase: Phase,
    first: usize,
    count: usize,
) -> Result<(), Refusal>
    requires { IsReady list.now work.old × (2 * (first + count) ≤ length list.now.steps.now) }
    ensures { IsWalked list.now phase first count work.old work.new result }
{
    for i in 0..count {
        let at = first + i;
        let last = is_last(phase, count, i);
        if !take_step(list, work, phase, last, at) {
            return Err(Refusal::StepRefused {
                position: at as u64,
            });
        }
    }
    Ok(())
}

// "registers start each phase empty, spill slots the sample": the control slots stay.
fn enter(terms: Terms, work: &mut [u32])
    requires { table_end terms ≤ length work.old }
    ensures { work.new ≡ entered_table terms work.old }
{
    let registers = terms.registers();
    let spills = terms.spill_slots();
    tables::zero_part(work, registers.base, registers.base + registers.count);
    tables::zero_part(work, spills.base, spills.base + spills.count);
}

// A state or delay with this update and this flag.
#[tactic(auto, unfolding(crate::specs::WalkLaws::fulfilled))]
fn fulfilled(update: u32, flag: u32) -> bool
    ensures { result ≡ fulfilled update flag }
{
    update == 0 || flag != 0
}

// "each state and delay with an update is stored": each has a flag.
fn stored_if_asked(updates: &[u32], flags: &[u32]) -> bool
    requires { length updates.now ≡ length flags.now }
    ensures { result ≡ every (stored_if_asked updates.now flags.now) (length updates.now) }
{
    (0..updates.len()).all(|i| fulfilled(updates[i], flags[i]))
}

fn nothing_missing(list: &Listing<'_>, work: &[u32]) -> bool
    requires { IsReady list.now work.now }
    ensures { result ≡ misses_nothing list.now.updates.now list.now.stores.now (held_of list.now.terms work.now) }
{
    let terms = list.terms;
    stored_if_asked(list.updates, terms.state_flags().words(work))
        && stored_if_asked(list.stores, terms.delay_flags().words(work))
        && table::output_at(terms, work) != 0
}

// The sample steps, and what is missing after them.
fn walk_sample(list: &Listing<'_>, work: &mut [u32]) -> Result<(), Refusal>
    requires { IsReady list.now work.old × (2 * (list.now.terms.kernel.control + list.now.terms.kernel.sample) ≤ length list.now.steps.now) }
    ensures { answer_of result ≡ sample_from (the_listing list.now) (held_of list.now.terms work.old) }
{
    let control = list.terms.kernel.control as usize;
    let sample = list.terms.kernel.sample as usize;
    enter(list.terms, work);
    walk(list, work, Phase::Sample, control, sample)?;
    if !nothing_missing(list, &work[..]) {
        return Err(Refusal::StepRefused {
            position: (control + sample) as u64,
        });
    }
    Ok(())
}

// The whole list: the classes of the nodes, the control steps, the sample steps.
pub fn walk_list(list: &Listing<'_>, work: &mut [u32]) -> Result<(), Refusal>
    requires { IsFit list.now work.old }
    ensures { answer_of result ≡ walk_answer (the_listing list.now) }
{
    classes::prepare(list.nodes, work, list.terms.count);
    let control = list.terms.kernel.control as usize;
    walk(list, work, Phase::Control, 0, control)?;
    walk_sample(list, work)
}
