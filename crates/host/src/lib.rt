// The thin host entry: one instruction on sixteen registers that are lent as a struct and written where they stand (document 01, module 6).
#![tactic(auto)]

ghost use Rattle.std.specs.Prelude.{◌≡◌, set};
ghost use Rattle.machine.specs.Machine.{execute};
ghost use Rattle.host.specs.Outcome.{outcome, outcome_of};

use answers::Refusal;
use kernel::Instruction;
use machine::registers;

// "A thin host entry takes them as a struct lent to it."
#[derive(Clone, Copy)]
pub struct Registers {
    pub words: [u32; 16],
}

// What a call leaves: its answer and the sixteen words.
#[derive(Clone, Copy)]
pub struct Outcome {
    pub answer: Result<(), Refusal>,
    pub words: [u32; 16],
}

fn put(words: [u32; 16], at: u32, value: u32) -> [u32; 16]
    ensures { result ≡ set words at value }
{
    let place = at as usize;
    let mut next = words;
    if place < 16 {
        next[place] = value;
    }
    next
}

#[tactic(auto, unfolding(machine::specs::Machine::execute))]
fn execute(words: [u32; 16], instruction: Instruction) -> [u32; 16]
    ensures { result ≡ execute words instruction }
{
    registers::execute_by(words, instruction, put)
}

// The instruction by value. Words that are no instruction are refused and change nothing.
#[tactic(auto, unfolding(crate::specs::Outcome::outcome))]
fn executed(words: [u32; 16], word: u32, immediate: u32) -> Outcome
    ensures { result ≡ outcome words word immediate }
{
    match Instruction::from_words(word, immediate) {
        Some(instruction) => Outcome {
            answer: Ok(()),
            words: execute(words, instruction),
        },
        None => Outcome {
            answer: Err(Refusal::BadStepList),
            words,
        },
    }
}

// Takes the array out of the lent struct, runs the instruction on it by value, and stores it back.
pub fn run_instruction(registers: &mut Registers, word: u32, immediate: u32) -> Result<(), Refusal>
    ensures { outcome_of result registers.new.words ≡ outcome registers.old.words word immediate }
{
    // an array goes in and out of a struct by a variable: the proof of a field that is stored straight is not generated
    let words = registers.words;
    let done = executed(words, word, immediate);
    let next = done.words;
    registers.words = next;
    done.answer
}

// "The sixteen registers go in and come back as one array of words": for callers that have the array itself.
pub fn run_on(registers: [u32; 16], word: u32, immediate: u32) -> Outcome
    ensures { result ≡ outcome registers word immediate }
{
    let mut lent = Registers { words: registers };
    let answer = run_instruction(&mut lent, word, immediate);
    let words = lent.words;
    Outcome { answer, words }
}
