// What an effect block's payload says: a header, four counts, and where each table stands.
ghost use Rattle.std.specs.Prelude.{◌≡◌, ◌*◌, ◌/◌, ◌≤◌, false, length};
ghost use Rattle.answers.specs.Numbers.{accepted};
ghost use Rattle.house.specs.Payload.{contents_in, contents_of, states_at, delays_at, nodes_at, contents_end};
ghost use Rattle.block.specs.Block.{the_block};
ghost use Rattle.house.specs.WriteLaws.{Small};
ghost use Rattle.house.specs.Read.{tables_short, read_tables};
ghost use Rattle.house.specs.Lent.{the_tables, KeepsTables};

use crate::{Contents, Tables, payload};
use block::{Block, Header};

// The header and the counts: the payload's first nine words.
pub fn contents(bytes: &[u8]) -> Contents
    requires { 512 ≤ length bytes.now }
    ensures { result ≡ contents_in bytes.now }
{
    let header = Header {
        version: payload::first_word(bytes, 0),
        category: payload::first_word(bytes, 1),
        channels: payload::first_word(bytes, 2),
        network: payload::first_word(bytes, 3),
        output: payload::first_word(bytes, 8),
    };
    Contents {
        header,
        parameters: payload::first_word(bytes, 4),
        states: payload::first_word(bytes, 5),
        delays: payload::first_word(bytes, 6),
        nodes: payload::first_word(bytes, 7),
    }
}

// The header and the counts of a block that is written.
pub fn contents_of(block: &Block<'_>) -> Contents
    requires { Small block.now.parameters.now block.now.states.now block.now.delays.now block.now.nodes.now }
    ensures { result ≡ contents_of (the_block block.now) }
{
    Contents {
        header: block.header,
        parameters: (block.parameters.len() / 3) as u32,
        states: (block.states.len() / 2) as u32,
        delays: (block.delays.len() / 2) as u32,
        nodes: (block.nodes.len() / 3) as u32,
    }
}

// Where the tables start in the payload. The counts are not trusted: the sums have 64 bits.
fn states_at(contents: Contents) -> usize
    ensures { result ≡ states_at contents }
{
    let parameters = contents.parameters as usize;
    9 + 3 * parameters
}

fn delays_at(contents: Contents) -> usize
    ensures { result ≡ delays_at contents }
{
    let states = contents.states as usize;
    states_at(contents) + 2 * states
}

fn nodes_at(contents: Contents) -> usize
    ensures { result ≡ nodes_at contents }
{
    let delays = contents.delays as usize;
    delays_at(contents) + 2 * delays
}

// Where the payload ends.
pub fn contents_end(contents: Contents) -> usize
    ensures { result ≡ contents_end contents }
{
    let nodes = contents.nodes as usize;
    nodes_at(contents) + 3 * nodes
}

// Whether a lent table is shorter than what the file has for it.
#[tactic(auto, unfolding(crate::specs::Read::tables_short))]
pub fn tables_short(contents: Contents, tables: &Tables<'_>) -> bool
    ensures { result ≡ tables_short contents (the_tables tables.now) }
{
    tables.parameters.len() < 3 * (contents.parameters as usize)
        || tables.states.len() < 2 * (contents.states as usize)
        || tables.delays.len() < 2 * (contents.delays as usize)
        || tables.nodes.len() < 3 * (contents.nodes as usize)
}

// The four tables over the first words of the lent ones.
pub fn copy_tables(bytes: &[u8], contents: Contents, tables: &mut Tables<'_>)
    requires { (contents_end contents ≤ 124 * (length bytes.now / 512)) × (tables_short contents (the_tables tables.old) ≡ false) }
    ensures read { the_tables tables.new ≡ read_tables (accepted contents) bytes.now (the_tables tables.old) }
    ensures same_tables { KeepsTables tables.old tables.new }
{
    payload::copy_section(
        bytes,
        9,
        tables.parameters,
        3 * (contents.parameters as usize),
    );
    let first = states_at(contents);
    payload::copy_section(bytes, first, tables.states, 2 * (contents.states as usize));
    let second = delays_at(contents);
    payload::copy_section(bytes, second, tables.delays, 2 * (contents.delays as usize));
    let third = nodes_at(contents);
    payload::copy_section(bytes, third, tables.nodes, 3 * (contents.nodes as usize));
}
