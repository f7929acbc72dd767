// Our answers on a block, held to the answer that was read.
use answers::Refusal;
use block::Block;
use expand::Expanded;
use replay::lines::Answer;
use replay::store::{Given, Store, Table};
use replay::{holds, is_refusal};

// Validation asks for no table, so a block whose expansion gets 13 is valid.
fn validates(answer: Answer, block: &Block<'_>) -> bool {
    match block.validate() {
        Ok(()) => answer.number == 0 || answer.number == Refusal::TableTooShort.number(),
        Err(refusal) => is_refusal(refusal, answer),
    }
}

fn is_expansion(expansion: Result<Expanded, Refusal>, answer: Answer) -> bool {
    match expansion {
        Ok(expanded) => {
            answer.number == 0
                && expanded.length == answer.second
                && expanded.output == answer.third
        }
        Err(refusal) => is_refusal(refusal, answer),
    }
}

// What a word of the lent table is before the call.
fn mark(at: usize) -> u32 {
    0xa5a5_0000 + (at % 0x1_0000) as u32
}

// The lent table gets the expansion's words, and every other word stays as it was before.
fn expands(answer: Answer, block: &Block<'_>, expanded: &[u32], lent: &mut [u32]) -> bool {
    for (at, word) in lent.iter_mut().enumerate() {
        *word = mark(at);
    }
    let expansion = expand::expand(block, lent);
    is_expansion(expansion, answer) && holds(lent, expanded, mark)
}

// Whether both our answers on the block that was read are `answer`, and the lent table holds what it should.
pub fn agrees(store: &Store, answer: Answer) -> bool {
    let Some(Given { block, sixth }) = store.given() else {
        return false;
    };
    if !validates(answer, &block) {
        return false;
    }
    let mut table = [0u32; 256];
    match table.get_mut(..sixth as usize) {
        Some(lent) => expands(answer, &block, store.table(Table::Expanded), lent),
        None => false,
    }
}
