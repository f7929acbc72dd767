// The sixteen registers by value: one is read, one is set, an instruction is executed on them (host.rs, `execute`).
ghost use Rattle.std.specs.Prelude.{◌≡◌, true, cond, ◌+◌, ◌*◌, ◌<◌, length, set};
ghost use Rattle.kernel.specs.Instructions.{destination, instruction_at};
ghost use Rattle.kernel.specs.Lists.{is_formed};
ghost use Rattle.machine.specs.Machine.{register, result_of, execute, execute_words};

use kernel::Instruction;

// A function of its own, so that `put` has no branch: an `if` in its loop takes the steps 1.2 to 1.45 of their time.
fn pick(at: bool, value: u32, old: u32) -> u32
    ensures { result ≡ cond at value old }
{
    if at { value } else { old }
}

// One register set. A choice at each of the sixteen places keeps the array in vector registers: a store to one place and a copy of the array stall.
pub fn put(registers: [u32; 16], at: u32, value: u32) -> [u32; 16]
    ensures { result ≡ set registers at value }
{
    let mut r = registers;
    let place = at as usize;
    for k in 0..16 {
        r[k] = pick(k == place, value, r[k]);
    }
    r
}

// One register read. Where the number is below 16 by its making the compiler drops the test.
pub fn read(registers: [u32; 16], at: u32) -> u32
    ensures { result ≡ register registers at }
{
    registers.get(at as usize).copied().unwrap_or(0)
}

// Two registers read from one copy of the array: the compiler puts it where an index can reach it once instead of twice.
fn read_both(registers: [u32; 16], lhs: u32, rhs: u32) -> (u32, u32)
    ensures lhs { result.0 ≡ register registers lhs }
    ensures rhs { result.1 ≡ register registers rhs }
{
    let left = lhs as usize;
    let right = rhs as usize;
    if left < 16 && right < 16 {
        (registers[left], registers[right])
    } else {
        (read(registers, lhs), read(registers, rhs))
    }
}

// What an operation makes of two registers.
fn on_both<F: Fn(u32, u32) -> u32>(registers: [u32; 16], lhs: u32, rhs: u32, operation: F) -> u32
    requires { F.IsAlwaysCallable operation }
    ensures { F.post operation (register registers lhs) (register registers rhs) result }
{
    let (left, right) = read_both(registers, lhs, rhs);
    operation(left, right)
}

// An instruction's result, which `put` sets in its destination. Who calls this gives a `put` of his own, and so has a copy of his own: with a second caller of one
// copy the compiler no longer lays it into the loop over steps, and a run takes twice as long.
pub fn execute_by<P: Fn([u32; 16], u32, u32) -> [u32; 16]>(
    registers: [u32; 16],
    instruction: Instruction,
    put: P,
) -> [u32; 16]
    requires { P.IsAlwaysCallable put }
    ensures { P.post put registers (destination instruction) (result_of registers instruction) result }
{
    // A match, here and in `step`, and no table of closures: no heap (document 01), and the compiler lays each arm into the loop over steps.
    let value = match instruction {
        Instruction::Immediate { value, .. } => value,
        Instruction::Add { lhs, rhs, .. } => on_both(registers, lhs, rhs, words::add),
        Instruction::Sub { lhs, rhs, .. } => on_both(registers, lhs, rhs, words::sub),
        Instruction::Mul { lhs, rhs, .. } => on_both(registers, lhs, rhs, words::mul),
        Instruction::Min { lhs, rhs, .. } => on_both(registers, lhs, rhs, words::min),
        Instruction::Max { lhs, rhs, .. } => on_both(registers, lhs, rhs, words::max),
        Instruction::Neg { src, .. } => words::neg(read(registers, src)),
        Instruction::Abs { src, .. } => words::abs(read(registers, src)),
        Instruction::IntegerSub { lhs, rhs, .. } => on_both(
            registers,
            lhs,
            rhs,
            words::integer_sub,
        ),
    };
    put(registers, instruction.destination(), value)
}

// The registers after an instruction.
#[tactic(auto, unfolding(crate::specs::Machine::execute))]
pub fn execute(registers: [u32; 16], instruction: Instruction) -> [u32; 16]
    ensures { result ≡ execute registers instruction }
{
    execute_by(registers, instruction, put)
}

// The registers after an instruction of a table, whose words are one.
#[tactic(auto, using(crate::proofs::StepArms::compute_formed))]
pub fn compute(registers: [u32; 16], instructions: &[u32], instruction: u32) -> [u32; 16]
    requires inside { 2 * instruction + 1 < length instructions.now }
    requires formed { is_formed (instruction_at instructions.now instruction) ≡ true }
    ensures { result ≡ execute_words registers (instruction_at instructions.now instruction) }
{
    let at = 2 * (instruction as usize);
    let named = Instruction::from_words_unchecked(instructions[at], instructions[at + 1]);
    execute(registers, named)
}
