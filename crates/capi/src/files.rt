// The C functions of the house file: thin calls of the crate that reads and writes it.
ghost use Rattle.std.specs.Prelude.{◌≡◌, ◌+◌};
ghost use Rattle.block.specs.Block.{block};
ghost use Rattle.house.specs.Payload.{contents_end};
ghost use Rattle.house.specs.File.{file_length};
ghost use Rattle.house.specs.Read.{tables, read_block_call, read_rendering_call};
ghost use Rattle.house.specs.Write.{write_block_call, write_rendering_call};
ghost use Rattle.house.specs.declared.Engine.TheVariants.{Graph, Steps};
ghost use Rattle.capi.specs.Crossing.{crossing, header};
ghost use Rattle.capi.specs.Runs.{crossed};
ghost use Rattle.capi.specs.Files.{read_block_crossing, read_rendering_crossing, write_crossing, records};

use crate::crosses::cross;
use block::{Block, Header};
use house::{Contents, Engine, Tables};

#[unsafe(no_mangle)]
pub extern "C" fn lichenstitch_read_block(
    bytes: &[u8],
    parameters: &mut [u32],
    states: &mut [u32],
    delays: &mut [u32],
    nodes: &mut [u32],
    answer: &mut [u32],
) -> u32
    ensures { crossed (crossing result answer.new) (tables parameters.new states.new delays.new nodes.new)
        ≡ read_block_crossing (read_block_call bytes.now (tables parameters.old states.old delays.old nodes.old)) answer.old }
{
    let mut lent = Tables {
        parameters,
        states,
        delays,
        nodes,
    };
    let read = house::read_block(bytes, &mut lent);
    cross(read, answer)
}

#[unsafe(no_mangle)]
pub extern "C" fn lichenstitch_read_rendering(
    bytes: &[u8],
    samples: &mut [u32],
    answer: &mut [u32],
) -> u32
    ensures { crossed (crossing result answer.new) samples.new
        ≡ read_rendering_crossing (read_rendering_call bytes.now samples.old) answer.old }
{
    let read = house::read_rendering(bytes, samples);
    cross(read, answer)
}

#[unsafe(no_mangle)]
pub extern "C" fn lichenstitch_write_block(
    version: u32,
    category: u32,
    channels: u32,
    network: u32,
    output: u32,
    parameters: &[u32],
    states: &[u32],
    delays: &[u32],
    nodes: &[u32],
    file: &mut [u8],
    answer: &mut [u32],
) -> u32
    ensures { crossed (crossing result answer.new) file.new
        ≡ write_crossing (write_block_call (block (header version category channels network output) parameters.now states.now delays.now nodes.now) file.old) answer.old }
{
    let header = Header {
        version,
        category,
        channels,
        network,
        output,
    };
    let block = Block {
        header,
        parameters,
        states,
        delays,
        nodes,
    };
    let written = house::write_block(&block, file);
    cross(written, answer)
}

// One function an engine: no rendering is written without saying which engine made it.
#[unsafe(no_mangle)]
pub extern "C" fn lichenstitch_write_graph_rendering(
    samples: &[u32],
    file: &mut [u8],
    answer: &mut [u32],
) -> u32
    ensures { crossed (crossing result answer.new) file.new
        ≡ write_crossing (write_rendering_call Graph samples.now file.old) answer.old }
{
    let written = house::write_rendering(Engine::Graph, samples, file);
    cross(written, answer)
}

#[unsafe(no_mangle)]
pub extern "C" fn lichenstitch_write_step_rendering(
    samples: &[u32],
    file: &mut [u8],
    answer: &mut [u32],
) -> u32
    ensures { crossed (crossing result answer.new) file.new
        ≡ write_crossing (write_rendering_call Steps samples.now file.old) answer.old }
{
    let written = house::write_rendering(Engine::Steps, samples, file);
    cross(written, answer)
}

// How many bytes to lend for a block of so many records in each table.
#[unsafe(no_mangle)]
pub extern "C" fn lichenstitch_block_bytes(
    parameters: u32,
    states: u32,
    delays: u32,
    nodes: u32,
) -> usize
    ensures { result ≡ file_length (contents_end (records parameters states delays nodes)) }
{
    let header = Header {
        version: 0,
        category: 0,
        channels: 0,
        network: 0,
        output: 0,
    };
    house::block_bytes(Contents {
        header,
        parameters,
        states,
        delays,
        nodes,
    })
}

// How many bytes to lend for a rendering of so many samples.
#[unsafe(no_mangle)]
pub extern "C" fn lichenstitch_rendering_bytes(samples: u32) -> usize
    ensures { result ≡ file_length (1 + samples) }
{
    house::rendering_bytes(samples)
}
