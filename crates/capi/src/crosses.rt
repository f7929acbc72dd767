// How an answer crosses to C: its number as the result, and what it says besides in words that the caller lends, as far as there are words for it.
ghost use Rattle.std.specs.Prelude.{◌≡◌, List, ℕ, set};
ghost use Rattle.answers.specs.Numbers.{number_of, values_of, answer_of};
ghost use Rattle.capi.specs.Crossing.{crossing, refused_crossing, answer_crossing, expanded_words};
ghost use Rattle.capi.specs.Compiles.{compiled_words};
ghost use Rattle.capi.specs.Files.{contents_put, rendering_words, count_words};
ghost use Rattle.capi.specs.Runs.{done_words};

use answers::Refusal;
use compile::Compiled;
use expand::Expanded;
use house::{Contents, Rendering};
use step_run::Done;

// What an accepted call says in the lent words.
pub trait Crosses {
    ghost said: { Self → List ℕ → List ℕ };

    fn say(self, answer: &mut [u32])
        ensures { answer.new ≡ said self answer.old };
}

// The value into a lent word, where there is such a word.
fn put(answer: &mut [u32], at: usize, value: u32)
    ensures { answer.new ≡ set answer.old at value }
{
    if at < answer.len() {
        answer[at] = value;
    }
}

// Validation, set, reset, the graph run and the step checker say nothing.
impl Crosses for () {
    ghost said = { λ _ lent. lent };

    fn say(self, answer: &mut [u32]) {}
}

// Length and output.
impl Crosses for Expanded {
    ghost said = { expanded_words };

    fn say(self, answer: &mut [u32]) {
        put(answer, 0, self.length);
        put(answer, 1, self.output);
    }
}

// Samples done and steps spent.
impl Crosses for Done {
    ghost said = { done_words };

    fn say(self, answer: &mut [u32]) {
        put(answer, 0, self.samples);
        put(answer, 1, self.steps);
    }
}

// The kernel's five counts and the most registers held at once.
impl Crosses for Compiled {
    ghost said = { compiled_words };

    fn say(self, answer: &mut [u32]) {
        put(answer, 0, self.kernel.control);
        put(answer, 1, self.kernel.sample);
        put(answer, 2, self.kernel.instructions);
        put(answer, 3, self.kernel.slots);
        put(answer, 4, self.kernel.spills);
        put(answer, 5, self.registers);
    }
}

// Header and counts.
impl Crosses for Contents {
    ghost said = { contents_put };

    fn say(self, answer: &mut [u32]) {
        let words = [
            self.header.version,
            self.header.category,
            self.header.channels,
            self.header.network,
            self.header.output,
            self.parameters,
            self.states,
            self.delays,
            self.nodes,
        ];
        tables::copy(&words, answer);
    }
}

// Kind and number of samples.
impl Crosses for Rendering {
    ghost said = { rendering_words };

    fn say(self, answer: &mut [u32]) {
        put(answer, 0, self.engine.into());
        put(answer, 1, self.samples);
    }
}

// A file's number of bytes as two words, the low one first.
impl Crosses for usize {
    ghost said = { count_words };

    fn say(self, answer: &mut [u32]) {
        put(answer, 0, (self % 0x1_0000_0000) as u32);
        put(answer, 1, (self / 0x1_0000_0000) as u32);
    }
}

// A refusal's number, and its first value in the first lent word.
fn refuse(refusal: Refusal, answer: &mut [u32]) -> u32
    ensures { crossing result answer.new ≡ refused_crossing (number_of refusal) (values_of refusal) answer.old }
{
    put(answer, 0, (refusal.value() % 0x1_0000_0000) as u32);
    refusal.number()
}

// 0 and what is said besides, or a refusal's number.
pub fn cross<T: Crosses>(res: Result<T, Refusal>, answer: &mut [u32]) -> u32
    ensures { crossing result answer.new ≡ answer_crossing T.said (answer_of res) answer.old }
{
    match res {
        Ok(accepted) => {
            accepted.say(answer);
            0
        }
        Err(refusal) => refuse(refusal, answer),
    }
}
