// The tasks of a phase in order (codegen.rs, `Allocator::run`).
ghost use Rattle.std.specs.Prelude.{◌≡◌, ◌+◌, ◌*◌, ◌<◌, ◌≤◌, IfSome, IfErr};
ghost use Rattle.answers.specs.declared.Refusal.TheVariants.{RegistersLocked};
ghost use Rattle.allocate.specs.Layout.{Wide};
ghost use Rattle.allocate.specs.Tasks.{the_lent};
ghost use Rattle.allocate.specs.Planned.{Planned};
ghost use Rattle.allocate.specs.Links.{linked_by, linked_at, linked};

use crate::{Desk, Frame, Operands, Reads, tasks};
use answers::Refusal;
use plan::Flow;

impl Desk<'_> {
    ghost use Rattle.allocate.specs.Desk.{the_desk, KeepsTables, choice};
    ghost use Rattle.allocate.specs.Ready.{ReadyAt, RoomAt};
    ghost use Rattle.allocate.specs.Planned.{TaskFits, Asks};
    ghost use Rattle.allocate.specs.Tasks.{reads_of, performed, ran, ran_to, ended, ended_as, outcome_of};
    ghost use Rattle.allocate.specs.TaskReady.{PhaseFits};

    // What a task reads.
    fn reads_of(&self, flow: &Flow<'_>, frame: Frame, task: usize) -> Reads
        requires { Wide frame self.now.work.now × TaskFits frame (the_lent flow.now) task }
        ensures { result ≡ reads_of frame (the_lent flow.now) self.now.work.now task }
    {
        tasks::reads_of(flow, self.work, frame, task)
    }

    // What a task says and what follows, once both operands are held. The task and its position stand beside the structs, for they are this call's alone.
    #[tactic(auto, unfolding(crate::specs::Tasks::performed, crate::specs::Tasks::finished))]
    fn perform(
        &mut self,
        nodes: &[u32],
        frame: Frame,
        reads: Reads,
        operands: Operands,
        task: usize,
        position: usize,
    ) -> Option<usize>
        requires ready { ReadyAt frame (the_desk self.old) × RoomAt 3 (the_desk self.old) }
        requires asks { Asks frame nodes.now self.old.work.now reads operands.first operands.second task position }
        ensures done { choice result self.new ≡ performed frame nodes.now reads operands.first operands.second task position (the_desk self.old) }
        ensures register { IfSome result (λ r. r < 16) }
        ensures same_tables { KeepsTables self.old self.new }
    {
        tasks::advance(self.work, frame, reads, position);
        let register = self.arm(nodes, frame, reads, operands, task)?;
        self.release_both(frame, reads);
        Some(register)
    }

    // One task.
    #[tactic(auto, unfolding(crate::specs::Tasks::ran, crate::specs::Tasks::carried))]
    fn operation(&mut self, flow: &Flow<'_>, frame: Frame, position: usize) -> Option<usize>
        requires { (ReadyAt frame (the_desk self.old) × Planned frame (the_lent flow.now) (position + 1) self.old.work.now) × RoomAt 7 (the_desk self.old) }
        ensures done { choice result self.new ≡ ran frame (the_lent flow.now) position (the_desk self.old) }
        ensures register { IfSome result (λ r. r < 16) }
        ensures same_tables { KeepsTables self.old self.new }
    {
        let at = frame.task_at(position);
        let task = self.work[at] as usize;
        let reads = self.reads_of(flow, frame, task);
        let fetched = self.fetch_both(flow.nodes, frame, reads);
        // Where the second is to be had, the first is.
        let second = fetched.second?;
        let first = fetched.first?;
        let operands = Operands { first, second };
        self.perform(flow.nodes, frame, reads, operands, task, position)
    }

    // The first count tasks, up to the first that is refused.
    pub fn allocate_phase(
        &mut self,
        flow: &Flow<'_>,
        frame: Frame,
        count: usize,
    ) -> Result<(), Refusal>
        requires { PhaseFits frame (the_lent flow.now) count (the_desk self.old) }
        ensures done { ended self.new.work.now self.new.steps.now self.new.instructions.now (ended_as result self.new.allocator) ≡ outcome_of (ran_to frame (the_lent flow.now) (the_desk self.old) count) }
        ensures refusal { IfErr result (λ refusal. refusal ≡ RegistersLocked) }
        ensures same_tables { KeepsTables self.old self.new }
    {
        for position in 0..count {
            if self.operation(flow, frame, position).is_none() {
                return Err(Refusal::RegistersLocked);
            }
        }
        Ok(())
    }
}

// The reads after a task are noted, and the task is the next that reads what it reads.
#[tactic(auto, unfolding(crate::specs::Links::linked_by))]
fn link_reads(work: &mut [u32], frame: Frame, reads: Reads, position: usize)
    requires { Wide frame work.old × (((reads.first < frame.nodes) × (reads.second < frame.nodes)) × (position ≤ 2 * frame.nodes + frame.states + frame.delays)) }
    ensures { work.new ≡ linked_by frame reads position work.old }
{
    let one = frame.link_at(2 * position);
    let two = frame.link_at(2 * position + 1);
    let lhs = frame.next_at(reads.first);
    let rhs = frame.next_at(reads.second);
    let first = work[lhs];
    let second = work[rhs];
    let number = (position + 1) as u32;
    work[one] = first;
    work[two] = second;
    work[lhs] = number;
    work[rhs] = number;
}

#[tactic(auto, unfolding(crate::specs::Links::linked_at))]
fn link_task(flow: &Flow<'_>, work: &mut [u32], frame: Frame, position: usize)
    requires { Wide frame work.old × Planned frame (the_lent flow.now) (position + 1) work.old }
    ensures { work.new ≡ linked_at frame (the_lent flow.now) position work.old }
{
    let at = frame.task_at(position);
    let task = work[at] as usize;
    let reads = tasks::reads_of(flow, work, frame, task);
    link_reads(work, frame, reads, position);
}

// The next read of each node and the reads after each task, from the last task to the first (codegen.rs, `reads` and `next`).
pub fn link(flow: &Flow<'_>, work: &mut [u32], frame: Frame, count: usize)
    requires { Wide frame work.old × Planned frame (the_lent flow.now) count work.old }
    ensures { work.new ≡ linked frame (the_lent flow.now) count work.old }
{
    for position in (0..count).rev() {
        link_task(flow, work, frame, position);
    }
}
