// A step and its two words: code×16+register, index.
ghost use Rattle.std.specs.Prelude.{◌≡◌, ◌<◌, Bool, cond, Some, None};
ghost use Rattle.kernel.specs.Steps.{source_code, step_code, step_register, source_index, step_index, step_word, step_from, step_of, step_or};

use crate::{Source, Step};

impl Source {
    fn code(self) -> u32
        ensures { result ≡ source_code self }
    {
        match self {
            Source::Audio => 1,
            Source::Network => 2,
            Source::Parameter { .. } => 3,
            Source::State { .. } => 4,
            Source::Delay { .. } => 5,
            Source::Control { .. } => 6,
        }
    }

    fn index(self) -> u32
        ensures { result ≡ source_index self }
    {
        match self {
            Source::Audio | Source::Network => 0,
            Source::Parameter { index } | Source::State { index } | Source::Delay { index } =>
                index,
            Source::Control { slot } => slot,
        }
    }
}

fn load(source: Source, register: u32) -> Step
    ensures { result ≡ Step.Load source register }
{
    Step::Load { source, register }
}

// The one table of codes: hands `make` the step of a code, a register and an index, and whether what
// the step does not use is 0. A code of no step has the last, not formed. Each reader below has a copy
// of its own, so that one that tests nothing has no test between the code and its case.
#[tactic(auto, unfolding(crate::specs::Steps::step_from))]
fn by_code<T, F: FnOnce(bool, Step) -> T>(code: u32, register: u32, index: u32, make: F) -> T
    requires { F.IsAlwaysCallable make }
    ensures { (formed : Bool) × (step : _) × (step_from code register index ≡ cond formed (Some step) None) × F.post make formed step result }
{
    let (instruction, slot, state, delay) = (index, index, index, index);
    match code {
        1 => make(index == 0, load(Source::Audio, register)),
        2 => make(index == 0, load(Source::Network, register)),
        3 => make(true, load(Source::Parameter { index }, register)),
        4 => make(true, load(Source::State { index }, register)),
        5 => make(true, load(Source::Delay { index }, register)),
        6 => make(true, load(Source::Control { slot }, register)),
        7 => make(register == 0, Step::Compute { instruction }),
        8 => make(true, Step::Spill { slot, register }),
        9 => make(true, Step::Reload { slot, register }),
        10 => make(true, Step::StoreState { state, register }),
        11 => make(true, Step::StoreDelay { delay, register }),
        12 => make(index == 0, Step::StoreOutput { register }),
        13 => make(true, Step::StoreControl { slot, register }),
        _ => make(false, Step::StoreControl { slot, register }),
    }
}

impl Step {
    // The code of a step's first word.
    pub fn code(self) -> u32
        ensures { result ≡ step_code self }
    {
        match self {
            Step::Load { source, .. } => source.code(),
            Step::Compute { .. } => 7,
            Step::Spill { .. } => 8,
            Step::Reload { .. } => 9,
            Step::StoreState { .. } => 10,
            Step::StoreDelay { .. } => 11,
            Step::StoreOutput { .. } => 12,
            Step::StoreControl { .. } => 13,
        }
    }

    // The register of a step's first word: 0 for a compute, whose registers stand in its instruction.
    pub fn register(self) -> u32
        ensures { result ≡ step_register self }
    {
        match self {
            Step::Compute { .. } => 0,
            Step::Load { register, .. }
            | Step::Spill { register, .. }
            | Step::Reload { register, .. }
            | Step::StoreState { register, .. }
            | Step::StoreDelay { register, .. }
            | Step::StoreOutput { register }
            | Step::StoreControl { register, .. } => register,
        }
    }

    // A step's second word.
    pub fn index(self) -> u32
        ensures { result ≡ step_index self }
    {
        match self {
            Step::Load { source, .. } => source.index(),
            Step::Compute { instruction } => instruction,
            Step::Spill { slot, .. }
            | Step::Reload { slot, .. }
            | Step::StoreControl { slot, .. } => slot,
            Step::StoreState { state, .. } => state,
            Step::StoreDelay { delay, .. } => delay,
            Step::StoreOutput { .. } => 0,
        }
    }

    // A step's first word.
    #[tactic(auto, unfolding(crate::specs::Steps::step_word))]
    pub fn word(self) -> u32
        ensures { result ≡ step_word self }
    {
        self.code() * 16 + self.register() % 16
    }

    // Two words as a step. Words that no step has are none, so no two pairs of words are one step. No TryFrom of a pair: the words are read and stored one by
    // one, and the names say which is which.
    pub fn from_words(word: u32, index: u32) -> Option<Step>
        ensures { result ≡ step_of word index }
    {
        by_code(
            word / 16,
            word % 16,
            index,
            |formed, step| if formed { Some(step) } else { None },
        )
    }

    // For words that may run and so are a step: with no test between the code and its case a compiler jumps once for both.
    pub fn from_words_unchecked(word: u32, index: u32) -> Step
        ensures { result ≡ step_or result (step_of word index) }
    {
        by_code(word / 16, word % 16, index, |_, step| step)
    }
}
