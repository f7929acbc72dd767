// Our answer on a call, held to the answer that was read.
ghost use Rattle.std.specs.Prelude.{◌≤◌};

use answers::Refusal;
use block::Block;
use compile::Compiled;
use replay::lines::Answer;
use replay::store::{Given, Store, Table};
use replay::{holds, is_refusal};

// What every word of the lent tables is before the call.
const MARK: u32 = 0xa5a5_a5a5;
// The room for the expansion, for the steps and the instructions, and for the work table.
const EXPANSION: usize = 256;

const LIST: usize = 1_024;

const WORK: usize = 2_560;

// A call with more states and delays than this is a difference, so that every length below is a number that fits.
const MEMORIES: usize = 100;

#[derive(Clone, Copy, PartialEq, Eq)]
enum Lent {
    Expansion,
    Steps,
    Instructions,
    Work,
}

// How a call's tables are lent: expanded nodes, the table that is a word short, and the spare words of the others.
#[derive(Clone, Copy)]
struct Lending {
    nodes: u32,
    short: Option<Lent>,
    spare: u32,
}

// A call that was read: a block and a mask, how its tables are lent, and what it should answer and write.
#[derive(Clone, Copy)]
struct Call<'a> {
    block: Block<'a>,
    mask: u32,
    lending: Lending,
    answer: Answer,
    counts: &'a [u32],
    steps: &'a [u32],
    instructions: &'a [u32],
}

// The tables that a call writes.
#[derive(Drop)]
struct Tables<'a> {
    expansion: &'a mut [u32],
    steps: &'a mut [u32],
    instructions: &'a mut [u32],
    work: &'a mut [u32],
}

impl Lending {
    // A call that is refused before its tables matter has no such line.
    fn new(words: &[u32]) -> Lending {
        let (nodes, short, spare) = if words.len() == 3 {
            (words[0], words[1], words[2])
        } else {
            (0, 0, 0)
        };
        // A word of a line as an Option and no TryFrom: another number says that no table is short.
        let short = match short {
            1 => Some(Lent::Expansion),
            2 => Some(Lent::Steps),
            3 => Some(Lent::Instructions),
            4 => Some(Lent::Work),
            _ => None,
        };
        Lending {
            nodes,
            short,
            spare,
        }
    }

    // A table has the words that it needs and the spare ones, or is a word short. It is never longer than its room: a kernel that
    // needs more gets 13, a difference.
    fn length(self, table: Lent, needed: usize, room: usize) -> usize
        ensures { result ≤ room }
    {
        if needed == 0 {
            0
        } else if room < needed {
            room
        } else if self.short == Some(table) {
            needed - 1
        } else {
            room.min(needed.saturating_add(self.spare as usize))
        }
    }
}

impl Call<'_> {
    // The five counts and the most registers held are the ones that were told.
    fn is_answered(&self, compiled: Result<Compiled, Refusal>) -> bool {
        match compiled {
            Ok(Compiled { kernel, registers }) => {
                self.answer.number == 0
                    && self.counts[..]
                        == [
                            kernel.control,
                            kernel.sample,
                            kernel.instructions,
                            kernel.slots,
                            kernel.spills,
                            registers,
                        ]
            }
            Err(refusal) => is_refusal(refusal, self.answer),
        }
    }

    // Whether a call with this answer writes its tables.
    fn writes(&self) -> bool {
        self.answer.number == 0 || self.answer.number == Refusal::RegistersLocked.number()
    }

    // A call that writes its tables leaves zeros behind its steps and instructions and in the work table, and the expansion as it was behind its nodes;
    // any other changes nothing.
    fn leaves(&self, tables: &Tables<'_>) -> bool {
        let (written, behind) = if self.writes() {
            (3 * self.lending.nodes as usize, 0)
        } else {
            (0, MARK)
        };
        tables
            .expansion
            .get(written..)
            .is_some_and(|rest| holds(rest, &[], |_| MARK))
            && holds(tables.steps, self.steps, |_| behind)
            && holds(tables.instructions, self.instructions, |_| behind)
            && holds(tables.work, &[], |_| behind)
    }

    fn compiles(&self, tables: &mut Tables<'_>) -> bool {
        let compiled = compile::compile(
            &self.block,
            self.mask,
            tables.expansion,
            tables.steps,
            tables.instructions,
            tables.work,
        );
        self.is_answered(compiled) && self.leaves(tables)
    }

    // Lends the four tables, at document 01's lengths for the call's expanded nodes and memories.
    fn agrees(&self) -> bool {
        let memories = self.block.states.len() / 2 + self.block.delays.len() / 2;
        if MEMORIES < memories {
            return false;
        }
        let nodes = self.lending.nodes as usize;
        let most = 2 * (7 * nodes + 5 * (memories + 1));
        let work = 32 * nodes + 16 * memories + 320;
        let expansion_words = self.lending.length(Lent::Expansion, 3 * nodes, EXPANSION);
        let step_words = self.lending.length(Lent::Steps, most, LIST);
        let instruction_words = self.lending.length(Lent::Instructions, most, LIST);
        let work_words = self.lending.length(Lent::Work, work, WORK);
        let mut expansion = [MARK; EXPANSION];
        let mut steps = [MARK; LIST];
        let mut instructions = [MARK; LIST];
        let mut work = [MARK; WORK];
        self.compiles(&mut Tables {
            expansion: &mut expansion[..expansion_words],
            steps: &mut steps[..step_words],
            instructions: &mut instructions[..instruction_words],
            work: &mut work[..work_words],
        })
    }
}

// Whether our answer on the call that was read is `answer`, and the lent tables hold what they should.
pub fn agrees(store: &Store, answer: Answer) -> bool {
    let Some(Given { block, sixth }) = store.given() else {
        return false;
    };
    let call = Call {
        block,
        mask: sixth,
        lending: Lending::new(store.table(Table::Given)),
        answer,
        counts: store.table(Table::Counts),
        steps: store.table(Table::Steps),
        instructions: store.table(Table::Instructions),
    };
    call.agrees()
}
