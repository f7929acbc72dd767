// Answer 16: whether the lent tables have the block's size and every cursor is in its line.
ghost use Rattle.std.specs.Prelude.{◌≡◌, List, ℕ, ◌/◌, length, eqb};
ghost use Rattle.tables.specs.Loops.{sum};
ghost use Rattle.block.specs.declared.Header.{Header};
ghost use Rattle.block.specs.Block.{block, the_block, delay_length};
ghost use Rattle.memory.specs.Sizes.{memories_fit, cursors_below, signals_fit, run_fits};
ghost use Rattle.memory.specs.Lines.{memories};

use crate::lines::Memories;
use crate::signals::Signals;
use block::{Block, Header};

// The area is as long as the lines together. It stops where they are already longer, so that no sum wraps.
fn area_fits(delays: &[u32], area: &[u32]) -> bool
    ensures { result ≡ eqb (length area.now) (sum (delay_length delays.now) (length delays.now / 2)) }
{
    let mut total: usize = 0;
    for i in 0..delays.len() / 2 {
        total += delays[2 * i] as usize;
        if area.len() < total {
            return false;
        }
    }
    area.len() == total
}

// States, cursors and area have the block's size. Here and in `run_fits` slices, so that who may only read the memories can ask; who has them as one struct asks
// it, below.
pub fn memories_fit(block: &Block<'_>, held: &[u32], area: &[u32], cursors: &[u32]) -> bool
    ensures { result ≡ memories_fit (the_block block.now) (memories held.now area.now cursors.now) }
{
    held.len() == block.states.len() / 2
        && cursors.len() == block.delays.len() / 2
        && area_fits(block.delays, area)
}

// Every cursor is below its delay's length.
fn cursors_below(delays: &[u32], cursors: &[u32]) -> bool
    requires { length cursors.now ≡ length delays.now / 2 }
    ensures { (header : Header) (parameters states nodes : List ℕ) → result ≡ cursors_below (block header parameters states delays.now nodes) cursors.now }
{
    (0..cursors.len()).all(|i| cursors[i] < delays[2 * i])
}

// Input, output and, with the flag set, network words have one length.
fn signals_fit(header: Header, signals: &Signals<'_>, output: &[u32]) -> bool
    ensures { (parameters states delays nodes : List ℕ) → result ≡ signals_fit (block header parameters states delays nodes) signals.now.input.now output.now signals.now.network.now }
{
    let input = signals.input;
    let network = signals.network;
    output.len() == input.len() && (header.network == 0 || network.len() == input.len())
}

// What both runs need of the tables they are lent; 16 is given where this is false.
pub fn run_fits(
    block: &Block<'_>,
    signals: &Signals<'_>,
    held: &[u32],
    area: &[u32],
    cursors: &[u32],
    output: &[u32],
) -> bool
    ensures { result ≡ run_fits (the_block block.now) signals.now.settings.now (memories held.now area.now cursors.now) signals.now.input.now output.now signals.now.network.now }
{
    signals_fit(block.header, signals, output)
        && signals.settings.len() == block.parameters.len() / 3
        && memories_fit(block, held, area, cursors)
        && cursors_below(block.delays, cursors)
}

impl Memories<'_> {
    ghost use Rattle.memory.specs.Lent.{the_memories};

    pub fn fit(&self, block: &Block<'_>) -> bool
        ensures { result ≡ memories_fit (the_block block.now) (the_memories self.now) }
    {
        memories_fit(block, self.held, self.area, self.cursors)
    }

    pub fn fit_run(&self, block: &Block<'_>, signals: &Signals<'_>, output: &[u32]) -> bool
        ensures { result ≡ run_fits (the_block block.now) signals.now.settings.now (the_memories self.now) signals.now.input.now output.now signals.now.network.now }
    {
        run_fits(block, signals, self.held, self.area, self.cursors, output)
    }
}
