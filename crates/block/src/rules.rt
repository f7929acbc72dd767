// What the header or one record may be refused for, without its number.
ghost use Rattle.std.specs.Prelude.{◌≡◌, not, ◌||◌, ltb, eqb};
ghost use Rattle.words.specs.Operations.{is_finite};
ghost use Rattle.block.specs.Limits.{most_delay_samples};
ghost use Rattle.block.specs.Validation.{malformed_words, malformed_header, unknown_version, network_not_allowed, operand_not_below, bad_content};

use crate::{Counts, Header, Kind, limits};

#[tactic(auto, unfolding(crate::specs::Validation::malformed_header))]
pub fn malformed_header(header: Header) -> bool
    ensures { result ≡ malformed_header header }
{
    limits::LAST_CATEGORY < header.category
        || limits::LAST_CHANNELS < header.channels
        || limits::LAST_FLAG < header.network
}

#[tactic(auto, unfolding(crate::specs::Validation::unknown_version))]
pub fn unknown_version(version: u32) -> bool
    ensures { result ≡ unknown_version version }
{
    version < limits::FIRST_VERSION || limits::LAST_VERSION < version
}

#[tactic(auto, unfolding(crate::specs::Validation::network_not_allowed))]
pub fn network_not_allowed(header: Header) -> bool
    ensures { result ≡ network_not_allowed header }
{
    header.network == 1
        && (header.version < limits::NETWORK_VERSION || header.channels != limits::MONO)
}

// The code is unknown, or a word that the kind does not use is not 0. An arm for each kind: with the kinds of one answer joined the compiler asks for them one
// after the other, for every node, and a validation takes 1.3 of the time.
pub fn malformed_words(kind: Kind, first: u32, second: u32) -> bool
    ensures { result ≡ malformed_words kind first second }
{
    match kind {
        Kind::Source => first != 0 || second != 0,
        Kind::Constant => second != 0,
        Kind::Parameter => second != 0,
        Kind::State => second != 0,
        Kind::Delay => second != 0,
        Kind::Binary => false,
        Kind::Divide => false,
        Kind::Unary => second != 0,
        Kind::Recip => second != 0,
        Kind::Tanh => second != 0,
        Kind::Sigmoid => second != 0,
        Kind::Unknown => true,
    }
}

#[tactic(auto, unfolding(crate::specs::Validation::operand_not_below))]
pub fn operand_not_below(operands: u32, node: u32, first: u32, second: u32) -> bool
    ensures { result ≡ operand_not_below operands node first second }
{
    1 <= operands && (node <= first || 2 <= operands && node <= second)
}

pub fn bad_content(kind: Kind, counts: Counts, first: u32) -> bool
    ensures { result ≡ bad_content kind counts first }
{
    let index = first as usize;
    match kind {
        Kind::Constant => !words::is_finite(first),
        Kind::Parameter => counts.parameters <= index,
        Kind::State => counts.states <= index,
        Kind::Delay => counts.delays <= index,
        Kind::Source
        | Kind::Binary
        | Kind::Divide
        | Kind::Unary
        | Kind::Recip
        | Kind::Tanh
        | Kind::Sigmoid
        | Kind::Unknown => false,
    }
}

// An update is 0 or a node's number and one.
pub fn bad_state(initial: u32, update: u32, nodes: usize) -> bool
    ensures { result ≡ (not (is_finite initial) || ltb nodes update) }
{
    !words::is_finite(initial) || nodes < update as usize
}

// The running total counts this delay too.
pub fn bad_delay(length: u32, update: u32, total: usize, nodes: usize) -> bool
    ensures { result ≡ (eqb length 0 || ltb most_delay_samples total || ltb nodes update) }
{
    length == 0 || limits::MOST_DELAY_SAMPLES < total || nodes < update as usize
}
