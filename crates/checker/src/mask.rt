// "registers used (not compute's 0 or unused parts) lie in the mask"
ghost use Rattle.std.specs.Prelude.{◌≡◌};
ghost use Rattle.checker.specs.Walk.{in_mask, instruction_in_mask, step_in_mask};

use crate::table;
use kernel::{Instruction, Step};

fn in_mask(mask: u32, register: u32) -> bool
    ensures { result ≡ in_mask mask register }
{
    register < 16 && (mask >> register) % 2 == 1
}

fn instruction_in_mask(mask: u32, instruction: Instruction) -> bool
    ensures { result ≡ instruction_in_mask mask instruction }
{
    match instruction {
        Instruction::Immediate { dst, .. } => in_mask(mask, dst),
        Instruction::Neg { dst, src } | Instruction::Abs { dst, src } => {
            in_mask(mask, dst) && in_mask(mask, src)
        }
        Instruction::Add { dst, lhs, rhs }
        | Instruction::Sub { dst, lhs, rhs }
        | Instruction::Mul { dst, lhs, rhs }
        | Instruction::Min { dst, lhs, rhs }
        | Instruction::Max { dst, lhs, rhs }
        | Instruction::IntegerSub { dst, lhs, rhs } => {
            in_mask(mask, dst) && in_mask(mask, lhs) && in_mask(mask, rhs)
        }
    }
}

pub fn step_in_mask(mask: u32, instructions: &[u32], step: Step) -> bool
    ensures { result ≡ step_in_mask mask instructions.now step }
{
    match step {
        Step::Compute { instruction } => table::instruction_at(
            instructions,
            instruction,
        ).is_some_and(|instruction| instruction_in_mask(mask, instruction)),
        _ => in_mask(mask, step.register()),
    }
}
