// A block: a header and four lent tables of words (document 01, "What crosses the boundary"), and its validation.
#![tactic(auto)]

pub mod kinds;
pub mod limits;
mod rules;
mod scans;
mod whole;

ghost use Rattle.std.specs.Prelude.{◌≡◌, false};
ghost use Rattle.answers.specs.Numbers.{answer_of};

use answers::Refusal;

// What a block says besides its four tables. Words, and no enums: any word may come, and validation refuses those that 01 does not know.
#[derive(Clone, Copy, Debug, PartialEq, Eq)]
pub struct Header {
    pub version: u32,
    pub category: u32,
    pub channels: u32,
    pub network: u32,
    pub output: u32,
}

// A block as it is lent: three words a parameter and a node, two a state and a delay.
#[derive(Clone, Copy)]
pub struct Block<'a> {
    pub header: Header,
    pub parameters: &'a [u32],
    pub states: &'a [u32],
    pub delays: &'a [u32],
    pub nodes: &'a [u32],
}

// How many records the tables have that nodes index.
#[derive(Clone, Copy)]
pub struct Counts {
    pub parameters: usize,
    pub states: usize,
    pub delays: usize,
}

// What a node's code says of the node: which of its words are used and how it expands.
#[derive(Clone, Copy)]
pub enum Kind {
    Source,
    Constant,
    Parameter,
    State,
    Delay,
    Binary,
    Divide,
    Unary,
    Recip,
    Tanh,
    Sigmoid,
    Unknown,
}

impl Block<'_> {
    ghost use Rattle.block.specs.Block.{the_block};
    ghost use Rattle.block.specs.Validation.{counts_of, too_large, records_answer, validation};

    pub fn counts(&self) -> Counts
        ensures { result ≡ counts_of (the_block self.now) }
    {
        Counts {
            parameters: self.parameters.len() / 3,
            states: self.states.len() / 2,
            delays: self.delays.len() / 2,
        }
    }

    // Answers 7 to 12. The limits of 6 hold, so a record's index is a word.
    fn validate_records(&self) -> Result<(), Refusal>
        requires { too_large (the_block self.now) ≡ false }
        ensures { answer_of result ≡ records_answer (the_block self.now) }
    {
        let count = self.nodes.len() / 3;
        scans::first_bad_parameter(self.parameters)?;
        let output = self.header.output as usize;
        if count <= output {
            return Err(Refusal::MissingOutput);
        }
        scans::first_bad_node(self.nodes, self.counts())?;
        scans::first_bad_state(self.states, count)?;
        scans::first_bad_delay(self.delays, count)
    }

    // Whether a block is valid, or the lowest of the answers 1 to 12 that are given for it.
    pub fn validate(&self) -> Result<(), Refusal>
        ensures { answer_of result ≡ validation (the_block self.now) }
    {
        if whole::malformed(self) {
            return Err(Refusal::Malformed);
        }
        if rules::unknown_version(self.header.version) {
            return Err(Refusal::UnknownVersion);
        }
        if rules::network_not_allowed(self.header) {
            return Err(Refusal::NetworkNotAllowed);
        }
        if whole::network_flag_clear(self.header, self.nodes) {
            return Err(Refusal::NetworkFlagClear);
        }
        if whole::needs_version_two(self.header, self.nodes) {
            return Err(Refusal::NeedsVersionTwo);
        }
        if whole::too_large(self) {
            return Err(Refusal::TooLarge);
        }
        self.validate_records()
    }
}
