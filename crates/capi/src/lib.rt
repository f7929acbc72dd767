// The C functions: thin calls of the crates that do the work, under one prefix, each with the same
// promise as what it calls. include/lichenstitch.h declares them for C, so each takes its words and tables one by one.
#![tactic(auto)]

mod checks;
mod compiles;
mod crosses;
mod files;
mod runs;

ghost use Rattle.std.specs.Prelude.{◌≡◌};
ghost use Rattle.words.specs.Operations.{added, subtracted, multiplied, lesser, greater, negated, absolute, wrapping_difference, is_finite, span_is_valid, in_range};
ghost use Rattle.block.specs.Block.{block};
ghost use Rattle.block.specs.Validation.{validation};
ghost use Rattle.expand.specs.Expansion.{expand_call};
ghost use Rattle.capi.specs.Crossing.{crossing, verdict_crossing, table_crossing, expand_crossing, header};

use block::{Block, Header};
use crosses::cross;

#[unsafe(no_mangle)]
pub extern "C" fn lichenstitch_add(lhs: u32, rhs: u32) -> u32
    ensures { result ≡ added lhs rhs }
{
    words::add(lhs, rhs)
}

#[unsafe(no_mangle)]
pub extern "C" fn lichenstitch_sub(lhs: u32, rhs: u32) -> u32
    ensures { result ≡ subtracted lhs rhs }
{
    words::sub(lhs, rhs)
}

#[unsafe(no_mangle)]
pub extern "C" fn lichenstitch_mul(lhs: u32, rhs: u32) -> u32
    ensures { result ≡ multiplied lhs rhs }
{
    words::mul(lhs, rhs)
}

#[unsafe(no_mangle)]
pub extern "C" fn lichenstitch_min(lhs: u32, rhs: u32) -> u32
    ensures { result ≡ lesser lhs rhs }
{
    words::min(lhs, rhs)
}

#[unsafe(no_mangle)]
pub extern "C" fn lichenstitch_max(lhs: u32, rhs: u32) -> u32
    ensures { result ≡ greater lhs rhs }
{
    words::max(lhs, rhs)
}

#[unsafe(no_mangle)]
pub extern "C" fn lichenstitch_neg(word: u32) -> u32
    ensures { result ≡ negated word }
{
    words::neg(word)
}

#[unsafe(no_mangle)]
pub extern "C" fn lichenstitch_abs(word: u32) -> u32
    ensures { result ≡ absolute word }
{
    words::abs(word)
}

#[unsafe(no_mangle)]
pub extern "C" fn lichenstitch_integer_sub(lhs: u32, rhs: u32) -> u32
    ensures { result ≡ wrapping_difference lhs rhs }
{
    words::integer_sub(lhs, rhs)
}

#[unsafe(no_mangle)]
pub extern "C" fn lichenstitch_is_finite(word: u32) -> bool
    ensures { result ≡ is_finite word }
{
    words::is_finite(word)
}

#[unsafe(no_mangle)]
pub extern "C" fn lichenstitch_span_is_valid(min: u32, max: u32, default: u32) -> bool
    ensures { result ≡ span_is_valid min max default }
{
    words::span_is_valid(min, max, default)
}

#[unsafe(no_mangle)]
pub extern "C" fn lichenstitch_in_range(min: u32, max: u32, value: u32) -> bool
    ensures { result ≡ in_range min max value }
{
    words::in_range(min, max, value)
}

#[unsafe(no_mangle)]
pub extern "C" fn lichenstitch_validate(
    version: u32,
    category: u32,
    channels: u32,
    network: u32,
    output: u32,
    parameters: &[u32],
    states: &[u32],
    delays: &[u32],
    nodes: &[u32],
    answer: &mut [u32],
) -> u32
    ensures { crossing result answer.new ≡ verdict_crossing (validation (block (header version category channels network output) parameters.now states.now delays.now nodes.now)) answer.old }
{
    let header = Header {
        version,
        category,
        channels,
        network,
        output,
    };
    let block = Block {
        header,
        parameters,
        states,
        delays,
        nodes,
    };
    cross(block.validate(), answer)
}

#[unsafe(no_mangle)]
pub extern "C" fn lichenstitch_expand(
    version: u32,
    category: u32,
    channels: u32,
    network: u32,
    output: u32,
    parameters: &[u32],
    states: &[u32],
    delays: &[u32],
    nodes: &[u32],
    expansion: &mut [u32],
    answer: &mut [u32],
) -> u32
    ensures { table_crossing (crossing result answer.new) expansion.new
        ≡ expand_crossing (expand_call (block (header version category channels network output) parameters.now states.now delays.now nodes.now) expansion.old) answer.old }
{
    let header = Header {
        version,
        category,
        channels,
        network,
        output,
    };
    let block = Block {
        header,
        parameters,
        states,
        delays,
        nodes,
    };
    let expanded = expand::expand(&block, expansion);
    cross(expanded, answer)
}
