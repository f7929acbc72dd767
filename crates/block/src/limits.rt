// The numbers of answers 1 to 6 and 12, each once.
ghost use Rattle.std.specs.Prelude.{◌≡◌};
ghost use Rattle.block.specs.Limits.{code_needs_two, category_needs_two};

pub const FIRST_VERSION: u32 = 1;

pub const LAST_VERSION: u32 = 3;
// The first version that may have a network.
pub const NETWORK_VERSION: u32 = 3;

pub const LAST_CATEGORY: u32 = 13;

pub const LAST_CHANNELS: u32 = 1;

pub const LAST_FLAG: u32 = 1;

pub const MONO: u32 = 1;

pub const NETWORK_CODE: u32 = 17;

pub const MOST_NODES: usize = 65_536;

pub const MOST_PARAMETERS: usize = 256;

pub const MOST_STATES: usize = 4_096;

pub const MOST_DELAYS: usize = 4_096;

pub const MOST_DELAY_SAMPLES: usize = 16_777_216;

// sub_bits, div, recip, tanh, sigmoid.
#[tactic(auto, unfolding(crate::specs::Limits::code_needs_two))]
pub fn code_needs_two(code: u32) -> bool
    ensures { result ≡ code_needs_two code }
{
    match code {
        10 | 11 | 14 | 15 | 16 => true,
        _ => false,
    }
}

// The amplifiers, bass overdrive, compressor, reverb, wah and synth.
#[tactic(auto, unfolding(crate::specs::Limits::category_needs_two))]
pub fn category_needs_two(category: u32) -> bool
    ensures { result ≡ category_needs_two category }
{
    match category {
        1 | 2 | 3 | 5 | 8 | 9 | 13 => true,
        _ => false,
    }
}
