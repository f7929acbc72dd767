// How many samples a call does within its budget of steps.
ghost use Rattle.std.specs.Prelude.{◌≡◌, ◌<◌};
ghost use Rattle.step_run.specs.Budget.{samples_done};
ghost use Rattle.step_run.specs.BudgetLaws.{Within, done_of};

use crate::Done;
use kernel::Kernel;

// The largest n with control steps + n × sample steps within the budget: what the control steps leave of it, shared out.
#[tactic(auto, using(crate::specs::BudgetLaws::none_done, crate::specs::BudgetLaws::done_is))]
pub fn samples_done(kernel: Kernel, budget: u32, input: usize) -> usize
    requires { 0 < kernel.sample }
    ensures { result ≡ samples_done kernel budget input }
{
    if budget < kernel.control {
        return 0;
    }
    let most = (budget - kernel.control) / kernel.sample;
    (most as usize).min(input)
}

// What a call of so many samples tells: "steps spent is that sum".
pub fn done(kernel: Kernel, budget: u32, count: usize) -> Done
    requires { Within kernel budget count }
    ensures { result ≡ done_of kernel count }
{
    let samples = count as u32;
    Done {
        samples,
        steps: kernel.control + samples * kernel.sample,
    }
}
