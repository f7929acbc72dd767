// The tables of the block or call that is being read.
ghost use Rattle.std.specs.Prelude.{◌≡◌, ◌≤◌, ◌<◌, ◌↔◌, IsSome, IsTrue, All, length, replicate};

use crate::lines::Answer;
use block::{Block, Header};

#[derive(Clone, Copy)]
pub enum Table {
    Parameters,
    States,
    Delays,
    Nodes,
    Expanded,
    // Version, category, channels, network flag, output, and of a block how many words the lent table has, of a call its mask.
    Header,
    // Of a call: the expanded nodes, the table that is a word short, and the spare words of the others.
    Given,
    Steps,
    Instructions,
    // Control steps, sample steps, instructions, control slots, spill slots, and the most registers held.
    Counts,
}

const TABLES: [Table; 10] = [
    Table::Parameters,
    Table::States,
    Table::Delays,
    Table::Nodes,
    Table::Expanded,
    Table::Header,
    Table::Given,
    Table::Steps,
    Table::Instructions,
    Table::Counts,
];

// The longest block that is replayed is one of 5,466 nodes, whose expansion is too large.
const ROOM: usize = 16_400;

impl Table {
    // The table of a line's number, which `place` gives back: an Option and no TryFrom, since no refusal is told of another number.
    pub fn numbered(number: u32) -> Option<Table>
        ensures { IsSome result ↔ (number < 10) }
    {
        TABLES.get(number as usize).copied()
    }

    // Where the table stands among the others.
    fn place(self) -> usize
        ensures { result < 10 }
    {
        match self {
            Table::Parameters => 0,
            Table::States => 1,
            Table::Delays => 2,
            Table::Nodes => 3,
            Table::Expanded => 4,
            Table::Header => 5,
            Table::Given => 6,
            Table::Steps => 7,
            Table::Instructions => 8,
            Table::Counts => 9,
        }
    }
}

// Words of a line, of which the first `width` go behind a table's last ones.
#[derive(Clone, Copy)]
pub struct Record {
    pub table: Table,
    pub words: [u32; 3],
    pub width: usize,
    ghost within: { width ≤ 3 },
}

// The tables side by side, with the same room each, and how many words each has: fixed memory and no heap, as in document 01.
#[derive(Drop)]
pub struct Store {
    words: [u32; 164_000],
    counts: [usize; 10],
}

// A block that was read, and the word behind its header.
#[derive(Clone, Copy)]
pub struct Given<'a> {
    pub block: Block<'a>,
    pub sixth: u32,
}

impl Store {
    pub fn new() -> Store
        ensures { result.counts ≡ replicate 10 0 }
    {
        Store {
            words: [0; 164_000],
            counts: [0; 10],
        }
    }

    pub fn clear(&mut self)
        ensures { self.new.counts ≡ replicate 10 0 }
    {
        self.counts = [0; 10];
    }

    // A table without room for the words counts more of them than its room, so that its block is a difference.
    fn add_once(&mut self, record: Record) {
        let place = record.table.place();
        let count = self.counts[place];
        if ROOM - 3 < count {
            self.counts[place] = ROOM + 1;
            return;
        }
        let at = place * ROOM + count;
        let [first, second, third] = record.words;
        self.words[at] = first;
        self.words[at + 1] = second;
        self.words[at + 2] = third;
        self.counts[place] = count + record.width;
    }

    // The record's words, so many times.
    pub fn add(&mut self, record: Record, times: u32) {
        for _ in 0..times {
            self.add_once(record);
        }
    }

    // Whether every table had room for its words.
    fn fits(&self) -> bool
        ensures { IsTrue result ↔ All (λ count. count ≤ 16400) self.now.counts }
    {
        self.counts.iter().all(|count| *count <= ROOM)
    }

    // The words of a table, none where it had no room for them.
    pub fn table(&self, table: Table) -> &[u32]
        ensures { length result.now ≤ 16400 }
    {
        let place = table.place();
        let count = self.counts[place];
        if ROOM < count {
            return &[];
        }
        let start = place * ROOM;
        self.words.get(start..start + count).unwrap_or(&[])
    }

    // The block, where every table had room and the header is whole.
    pub fn given(&self) -> Option<Given<'_>>
        ensures { IsSome result → All (λ count. count ≤ 16400) self.now.counts }
    {
        if !self.fits() {
            return None;
        }
        let head = self.table(Table::Header);
        if head.len() != 6 {
            return None;
        }
        let header = Header {
            version: head[0],
            category: head[1],
            channels: head[2],
            network: head[3],
            output: head[4],
        };
        let block = Block {
            header,
            parameters: self.table(Table::Parameters),
            states: self.table(Table::States),
            delays: self.table(Table::Delays),
            nodes: self.table(Table::Nodes),
        };
        Some(Given {
            block,
            sixth: head[5],
        })
    }
}
