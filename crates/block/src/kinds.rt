// A node's kind by its code, its operands, and how many nodes it expands to.
ghost use Rattle.std.specs.Prelude.{◌≡◌, ◌/◌, min, length};
ghost use Rattle.block.specs.Kinds.{kind_of, operands_of, recip_length, horner_length, tanh_length, length_of, tanh_steps, offset};

use crate::{Kind, limits};

// The Newton steps of a reciprocal, and of the one inside tanh.
pub const RECIP_STEPS: u32 = 3;

pub const TANH_STEPS: u32 = 2;

// What the code 0..17 says of its node.
impl From<u32> for Kind {
    ghost from_gives = { λ code kind. kind ≡ kind_of code };

    #[tactic(auto, unfolding(crate::specs::Kinds::kind_of))]
    fn from(code: u32) -> Kind {
        match code {
            0 | 17 => Kind::Source,
            1 => Kind::Constant,
            2 => Kind::Parameter,
            3 => Kind::State,
            4 => Kind::Delay,
            5..=10 => Kind::Binary,
            11 => Kind::Divide,
            12..=13 => Kind::Unary,
            14 => Kind::Recip,
            15 => Kind::Tanh,
            16 => Kind::Sigmoid,
            _ => Kind::Unknown,
        }
    }
}

// Two constants and the first estimate, then three nodes for each Newton step.
fn recip_length(steps: u32) -> usize
    ensures { result ≡ recip_length steps }
{
    3 + steps as usize * 3
}

// A Horner step is a constant, a product and a sum.
fn horner_length(terms: u32) -> usize
    ensures { result ≡ horner_length terms }
{
    terms as usize * 3
}

// The clamped input, its square and 1; numerator and denominator; the reciprocal; the quotient.
fn tanh_length(steps: u32) -> usize
    ensures { result ≡ tanh_length steps }
{
    6 + (horner_length(3) + 1) + (1 + horner_length(3)) + recip_length(steps) + 1
}

impl Kind {
    // How many of a node's two words are operands.
    pub fn operands(self) -> u32
        ensures { result ≡ operands_of self }
    {
        match self {
            Kind::Binary | Kind::Divide => 2,
            Kind::Unary | Kind::Recip | Kind::Tanh | Kind::Sigmoid => 1,
            Kind::Source
            | Kind::Constant
            | Kind::Parameter
            | Kind::State
            | Kind::Delay
            | Kind::Unknown => 0,
        }
    }

    // How many nodes a node of this kind expands to, by the Newton steps inside tanh.
    pub fn length(self, steps: u32) -> usize
        ensures { result ≡ length_of steps self }
    {
        match self {
            Kind::Divide => recip_length(RECIP_STEPS) + 1,
            Kind::Recip => recip_length(RECIP_STEPS),
            Kind::Tanh => tanh_length(steps),
            Kind::Sigmoid => 2 + tanh_length(steps) + 2,
            Kind::Source
            | Kind::Constant
            | Kind::Parameter
            | Kind::State
            | Kind::Delay
            | Kind::Binary
            | Kind::Unary
            | Kind::Unknown => 1,
        }
    }
}

// The expanded length of a node table. It stops counting past the limit: 65,537 stands for every larger number too.
pub fn expanded_length(nodes: &[u32]) -> usize
    ensures { result ≡ min (offset tanh_steps nodes.now (length nodes.now / 3)) 65537 }
{
    let mut total: usize = 0;
    for i in 0..nodes.len() / 3 {
        total += Kind::from(nodes[3 * i]).length(TANH_STEPS);
        if limits::MOST_NODES < total {
            return limits::MOST_NODES + 1;
        }
    }
    total
}
