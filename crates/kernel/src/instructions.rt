// An instruction and its two words: code×4096+dst×256+lhs×16+rhs, immediate.
ghost use Rattle.std.specs.Prelude.{◌≡◌, ◌&&◌, ◌≤◌, eqb, Bool, cond, Some, None};
ghost use Rattle.kernel.specs.Instructions.{packed, instruction_word, instruction_immediate, destination, instruction_from, instruction_of, instruction_or};

use crate::Instruction;

fn packed(code: u32, dst: u32, lhs: u32, rhs: u32) -> u32
    requires { code ≤ 9 }
    ensures { result ≡ packed code dst lhs rhs }
{
    code * 4096 + dst % 16 * 256 + lhs % 16 * 16 + rhs % 16
}

fn both_zero(a: u32, b: u32) -> bool
    ensures { result ≡ (eqb a 0 && eqb b 0) }
{
    a == 0 && b == 0
}

// The one table of codes, for two readers as `steps::by_code`.
#[tactic(auto, unfolding(crate::specs::Instructions::instruction_from))]
fn by_code<T, F: FnOnce(bool, Instruction) -> T>(
    code: u32,
    dst: u32,
    lhs: u32,
    rhs: u32,
    value: u32,
    make: F,
) -> T
    requires { F.IsAlwaysCallable make }
    ensures { (formed : Bool) × (i : _) × (instruction_from code dst lhs rhs value ≡ cond formed (Some i) None) × F.post make formed i result }
{
    // what must be 0 of an instruction with two operands, with one, with none
    let two = value == 0;
    let one = both_zero(rhs, value);
    let none = both_zero(lhs, rhs);
    match code {
        1 => make(none, Instruction::Immediate { dst, value }),
        2 => make(two, Instruction::Add { dst, lhs, rhs }),
        3 => make(two, Instruction::Sub { dst, lhs, rhs }),
        4 => make(two, Instruction::Mul { dst, lhs, rhs }),
        5 => make(two, Instruction::Min { dst, lhs, rhs }),
        6 => make(two, Instruction::Max { dst, lhs, rhs }),
        7 => make(one, Instruction::Neg { dst, src: lhs }),
        8 => make(one, Instruction::Abs { dst, src: lhs }),
        9 => make(two, Instruction::IntegerSub { dst, lhs, rhs }),
        _ => make(false, Instruction::IntegerSub { dst, lhs, rhs }),
    }
}

impl Instruction {
    // An instruction's first word.
    pub fn word(self) -> u32
        ensures { result ≡ instruction_word self }
    {
        match self {
            Instruction::Immediate { dst, .. } => packed(1, dst, 0, 0),
            Instruction::Add { dst, lhs, rhs } => packed(2, dst, lhs, rhs),
            Instruction::Sub { dst, lhs, rhs } => packed(3, dst, lhs, rhs),
            Instruction::Mul { dst, lhs, rhs } => packed(4, dst, lhs, rhs),
            Instruction::Min { dst, lhs, rhs } => packed(5, dst, lhs, rhs),
            Instruction::Max { dst, lhs, rhs } => packed(6, dst, lhs, rhs),
            Instruction::Neg { dst, src } => packed(7, dst, src, 0),
            Instruction::Abs { dst, src } => packed(8, dst, src, 0),
            Instruction::IntegerSub { dst, lhs, rhs } => packed(9, dst, lhs, rhs),
        }
    }

    // An instruction's second word.
    pub fn immediate(self) -> u32
        ensures { result ≡ instruction_immediate self }
    {
        match self {
            Instruction::Immediate { value, .. } => value,
            _ => 0,
        }
    }

    // The register that an instruction sets.
    pub fn destination(self) -> u32
        ensures { result ≡ destination self }
    {
        match self {
            Instruction::Immediate { dst, .. }
            | Instruction::Add { dst, .. }
            | Instruction::Sub { dst, .. }
            | Instruction::Mul { dst, .. }
            | Instruction::Min { dst, .. }
            | Instruction::Max { dst, .. }
            | Instruction::Neg { dst, .. }
            | Instruction::Abs { dst, .. }
            | Instruction::IntegerSub { dst, .. } => dst,
        }
    }

    // Two words as an instruction. Words that no instruction has are none, so no two pairs of words are one instruction.
    pub fn from_words(word: u32, immediate: u32) -> Option<Instruction>
        ensures { result ≡ instruction_of word immediate }
    {
        by_code(
            word / 4096,
            word / 256 % 16,
            word / 16 % 16,
            word % 16,
            immediate,
            |formed, instruction| if formed { Some(instruction) } else { None },
        )
    }

    // For words that are an instruction, as `Step::from_words_unchecked`.
    pub fn from_words_unchecked(word: u32, immediate: u32) -> Instruction
        ensures { result ≡ instruction_or result (instruction_of word immediate) }
    {
        by_code(
            word / 4096,
            word / 256 % 16,
            word / 16 % 16,
            word % 16,
            immediate,
            |_, instruction| instruction,
        )
    }
}
