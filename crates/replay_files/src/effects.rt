// Effect blocks, written and read back.
use crate::answer::{Answer, SAME};
use crate::table_words::Table;
use crate::{answer, table_words};
use block::{Block, Header};
use house::{Contents, Tables};

// A block of so many records, whose output is its last node.
pub fn contents(parameters: u32, states: u32, delays: u32, nodes: u32) -> Contents {
    let header = Header {
        version: 1,
        category: 10,
        channels: 0,
        network: 0,
        output: nodes.wrapping_sub(1),
    };
    Contents {
        header,
        parameters,
        states,
        delays,
        nodes,
    }
}

// How many bytes were written, 0 where the writer refused.
pub fn write(contents: Contents, file: &mut [u8]) -> usize {
    let mut parameters = [0u32; 60];
    let mut states = [0u32; 60];
    let mut delays = [0u32; 60];
    let mut nodes = [0u32; 1_500];
    table_words::fill(Table::Parameters, &mut parameters);
    table_words::fill(Table::States, &mut states);
    table_words::fill(Table::Delays, &mut delays);
    table_words::fill(Table::Nodes, &mut nodes);
    let block = Block {
        header: contents.header,
        parameters: answer::first(&parameters, 3 * (contents.parameters as usize)),
        states: answer::first(&states, 2 * (contents.states as usize)),
        delays: answer::first(&delays, 2 * (contents.delays as usize)),
        nodes: answer::first(&nodes, 3 * (contents.nodes as usize)),
    };
    house::write_block(&block, file).unwrap_or(0)
}

// Whether the lent tables begin with those of the block, and are as they were behind them.
fn tables_hold(contents: Contents, tables: &Tables<'_>) -> bool {
    let Contents {
        parameters,
        states,
        delays,
        nodes,
        ..
    } = contents;
    table_words::holds(
        Table::Parameters,
        3 * (parameters as usize),
        tables.parameters,
    ) && table_words::holds(Table::States, 2 * (states as usize), tables.states)
        && table_words::holds(Table::Delays, 2 * (delays as usize), tables.delays)
        && table_words::holds(Table::Nodes, 3 * (nodes as usize), tables.nodes)
}

// The answer on a file that should hold this block.
pub fn read(expected: Contents, file: &[u8]) -> Answer {
    let mut tables = Tables {
        parameters: &mut [0xa5a5_a5a5u32; 61],
        states: &mut [0xa5a5_a5a5u32; 61],
        delays: &mut [0xa5a5_a5a5u32; 61],
        nodes: &mut [0xa5a5_a5a5u32; 1_501],
    };
    match house::read_block(file, &mut tables) {
        Ok(read) if read == expected && tables_hold(expected, &tables) => SAME,
        Ok(_) => Answer::Wrong,
        Err(refusal) => answer::refused(refusal, tables_hold(contents(0, 0, 0, 0), &tables)),
    }
}

// Whether a block is read back as it was written, and no byte past its file changes.
pub fn round_trip(contents: Contents) -> bool {
    let mut file = [0xa5u8; 8_000];
    let size = write(contents, &mut file);
    size == house::block_bytes(contents)
        && table_words::bytes_kept(&file, size)
        && read(contents, answer::first(&file, size)) == SAME
}
