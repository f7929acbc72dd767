// The house file of document 01: an effect block or a rendering in 512-byte blocks, read and written.
#![tactic(auto)]

pub mod blocks;
mod effect;
pub mod frame;
pub mod gather;
pub mod payload;
mod word_bytes;

ghost use Rattle.std.specs.Prelude.{◌≡◌, ◌+◌};
ghost use Rattle.answers.specs.Numbers.{answer_of};
ghost use Rattle.block.specs.Block.{the_block};
ghost use Rattle.house.specs.Payload.{contents_end, kind_of, engine_of};
ghost use Rattle.house.specs.File.{file_length};
ghost use Rattle.house.specs.Lent.{the_tables, KeepsTables};
ghost use Rattle.house.specs.Read.{block_outcome, read_block_call, rendering_outcome, read_rendering_call};
ghost use Rattle.house.specs.Write.{outcome, write_block_call, write_rendering_call};

use answers::Refusal;
use block::{Block, Header};
use frame::Kinds;
use gather::{Effect, Samples};

// The kinds of a file, which are its words.
const EFFECT_KIND: u32 = 1;

const GRAPH_KIND: u32 = 2;

const STEP_KIND: u32 = 3;

const EFFECTS: Kinds = Kinds {
    low: EFFECT_KIND,
    high: EFFECT_KIND,
};

const RENDERINGS: Kinds = Kinds {
    low: GRAPH_KIND,
    high: STEP_KIND,
};

// What an effect block's file says besides its four tables: the header, and how many records each table has.
#[derive(Clone, Copy, Debug, PartialEq, Eq)]
pub struct Contents {
    pub header: Header,
    pub parameters: u32,
    pub states: u32,
    pub delays: u32,
    pub nodes: u32,
}

// The four tables that a block is read into.
#[derive(Drop)]
pub struct Tables<'a> {
    pub parameters: &'a mut [u32],
    pub states: &'a mut [u32],
    pub delays: &'a mut [u32],
    pub nodes: &'a mut [u32],
}

// Which engine made a rendering: the graph run or the step run.
#[derive(Clone, Copy, Debug, PartialEq, Eq)]
pub enum Engine {
    Graph,
    Steps,
}

// What a rendering's file says besides its samples.
#[derive(Clone, Copy, Debug, PartialEq, Eq)]
pub struct Rendering {
    pub engine: Engine,
    pub samples: u32,
}

// The engine of a kind of rendering. The frame has said that it is one of the two kinds.
fn engine_of(kind: u32) -> Engine
    ensures { result ≡ engine_of kind }
{
    match kind {
        GRAPH_KIND => Engine::Graph,
        _ => Engine::Steps,
    }
}

// Reads a rendering's samples over the first words of a lent table, and says which engine made it. Nothing is written where the answer is a refusal.
pub fn read_rendering(bytes: &[u8], samples: &mut [u32]) -> Result<Rendering, Refusal>
    ensures { rendering_outcome (answer_of result) samples.new ≡ read_rendering_call bytes.now samples.old }
{
    frame::judge(bytes, RENDERINGS)?;
    let held = payload::first_word(bytes, 0);
    let count = held as usize;
    if payload::payload_length(bytes) != 1 + count {
        return Err(Refusal::BadFrame);
    }
    if samples.len() < count {
        return Err(Refusal::TableTooShort);
    }
    payload::copy_section(bytes, 1, samples, count);
    let engine = engine_of(frame::block_word(bytes, 0, 0));
    Ok(Rendering {
        engine,
        samples: held,
    })
}

// Reads an effect block: its header and counts, and its tables over the first words of four lent ones. The block is not validated. Nothing is written
// where the answer is a refusal.
pub fn read_block(bytes: &[u8], tables: &mut Tables<'_>) -> Result<Contents, Refusal>
    ensures read { block_outcome (answer_of result) (the_tables tables.new) ≡ read_block_call bytes.now (the_tables tables.old) }
    ensures same_tables { KeepsTables tables.old tables.new }
{
    frame::judge(bytes, EFFECTS)?;
    let read = effect::contents(bytes);
    if payload::payload_length(bytes) != effect::contents_end(read) {
        return Err(Refusal::BadFrame);
    }
    if effect::tables_short(read, tables) {
        return Err(Refusal::TableTooShort);
    }
    effect::copy_tables(bytes, read, tables);
    Ok(read)
}

// The kind of an engine's renderings.
impl From<Engine> for u32 {
    ghost from_gives = { λ engine kind. kind ≡ kind_of engine };

    fn from(engine: Engine) -> u32 {
        match engine {
            Engine::Graph => GRAPH_KIND,
            Engine::Steps => STEP_KIND,
        }
    }
}

// How many bytes the file of a rendering of so many samples has.
pub fn rendering_bytes(samples: u32) -> usize
    ensures { result ≡ file_length (1 + samples) }
{
    let count = samples as usize;
    512 * blocks::blocks_for(1 + count)
}

// How many bytes the file of an effect block of these counts has.
pub fn block_bytes(contents: Contents) -> usize
    ensures { result ≡ file_length (contents_end contents) }
{
    512 * blocks::blocks_for(effect::contents_end(contents))
}

// Writes a rendering's file over the first bytes of a lent buffer and says how many bytes it has: 13 where there are too many samples to count in a word or
// too few bytes, and then nothing is written.
pub fn write_rendering(engine: Engine, samples: &[u32], bytes: &mut [u8]) -> Result<usize, Refusal>
    ensures { outcome (answer_of result) bytes.new ≡ write_rendering_call engine samples.now bytes.old }
{
    let Ok(count) = u32::try_from(samples.len()) else {
        return Err(Refusal::TableTooShort);
    };
    let need = rendering_bytes(count);
    if bytes.len() < need {
        return Err(Refusal::TableTooShort);
    }
    let payload = Samples { count, samples };
    blocks::write_file(u32::from(engine), samples.len() + 1, &payload, bytes);
    Ok(need)
}

// Validates an effect block, writes its file over the first bytes of a lent buffer and says how many bytes it has: 13 where there are too few. A refusal
// leaves the buffer.
pub fn write_block(block: &Block<'_>, bytes: &mut [u8]) -> Result<usize, Refusal>
    ensures { outcome (answer_of result) bytes.new ≡ write_block_call (the_block block.now) bytes.old }
{
    block.validate()?;
    let contents = effect::contents_of(block);
    let count = 9
        + block.parameters.len()
        + block.states.len()
        + block.delays.len()
        + block.nodes.len();
    let need = 512 * blocks::blocks_for(count);
    if bytes.len() < need {
        return Err(Refusal::TableTooShort);
    }
    let payload = Effect {
        contents,
        block: *block,
    };
    blocks::write_file(EFFECT_KIND, count, &payload, bytes);
    Ok(need)
}
