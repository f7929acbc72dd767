// What the tables of a file hold: a word for each table and place, so that a table is known without a copy of it.
#[derive(Clone, Copy)]
pub enum Table {
    Samples,
    Parameters,
    States,
    Delays,
    Nodes,
    // What a table holds before a call.
    Lent,
}

fn sample(at: usize) -> u32 {
    (at % 0x1_0000 * 40_503 + 12_345) as u32
}

// A parameter from 0 to 1, with a default of its own.
fn parameter(at: usize) -> u32 {
    match at % 3 {
        0 => 0,
        1 => 0x3f80_0000,
        _ => 0x3f00_0000 + (at % 0x1_0000) as u32,
    }
}

// An initial value or a length of its own, and no update or that by node 0.
fn memory(at: usize, first: u32) -> u32 {
    if at % 2 == 0 {
        return first.wrapping_add((at % 0x1_0000) as u32);
    }
    (at / 2 % 2) as u32
}

// The input, and then add, sub and mul in turn, each of nodes before it.
fn node(at: usize) -> u32 {
    let record = at / 3 % 0x1_0000;
    if record == 0 {
        return 0;
    }
    match at % 3 {
        0 => 5 + (record % 3) as u32,
        1 => (record - 1) as u32,
        _ => (record / 2) as u32,
    }
}

pub fn word_of(table: Table, at: usize) -> u32 {
    match table {
        Table::Samples => sample(at),
        Table::Parameters => parameter(at),
        Table::States => memory(at, 0x3f00_0000),
        Table::Delays => memory(at, 1),
        Table::Nodes => node(at),
        Table::Lent => 0xa5a5_a5a5,
    }
}

pub fn fill(table: Table, words: &mut [u32]) {
    for (at, word) in words.iter_mut().enumerate() {
        *word = word_of(table, at);
    }
}

// Whether the first `count` words are the table's, and those behind them as they were lent.
pub fn holds(table: Table, count: usize, words: &[u32]) -> bool {
    count <= words.len()
        && words
            .iter()
            .enumerate()
            .all(|(at, word)| *word == expected(table, count, at))
}

fn expected(table: Table, count: usize, at: usize) -> u32 {
    if at < count {
        word_of(table, at)
    } else {
        word_of(Table::Lent, at)
    }
}

// How many of the first `count` words are not the table's.
pub fn differing(table: Table, count: usize, words: &[u32]) -> usize {
    words
        .iter()
        .take(count)
        .enumerate()
        .filter(|(at, word)| **word != word_of(table, *at))
        .count()
}

// Whether the bytes from `from` on are as they were lent.
pub fn bytes_kept(bytes: &[u8], from: usize) -> bool {
    bytes
        .get(from..)
        .is_some_and(|rest| rest.iter().all(|byte| *byte == 0xa5))
}
