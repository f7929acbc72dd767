// Judging the blocks of a file: answers 20 and 21 (document 01, "House file").
ghost use Rattle.std.specs.Prelude.{◌≡◌, ◌+◌, ◌*◌, ◌≤◌, not, length};
ghost use Rattle.tables.specs.Lists.{list_of};
ghost use Rattle.answers.specs.Numbers.{answer_of};
ghost use Rattle.house.specs.Bytes.{wrapping_sum};
ghost use Rattle.house.specs.Frame.{block_word, other_kind, wrong_used, rest_not_zero, bad_block, judged_block, frame_answer};

use crate::word_bytes;
use answers::Refusal;

// The kinds of file that a reader takes: those from `low` to `high`.
#[derive(Clone, Copy)]
pub struct Kinds {
    pub low: u32,
    pub high: u32,
}

impl Kinds {
    #[tactic(auto, unfolding(crate::specs::Frame::other_kind))]
    fn takes(self, kind: u32) -> bool
        ensures { result ≡ not (other_kind self.low self.high kind) }
    {
        self.low <= kind && kind <= self.high
    }
}

// Word `place` of the block `number`.
pub fn block_word(bytes: &[u8], number: usize, place: usize) -> u32
    requires { 512 * number + 4 * place + 4 ≤ length bytes.now }
    ensures { result ≡ block_word bytes.now number place }
{
    word_bytes::word(bytes, 512 * number + 4 * place)
}

// The wrapping sum of a block's 128 words.
pub fn block_sum(bytes: &[u8], number: usize) -> u32
    requires { 512 * number + 512 ≤ length bytes.now }
    ensures { result ≡ wrapping_sum (list_of (block_word bytes.now number) 128) }
{
    let mut sum: u32 = 0;
    for i in 0..128 {
        sum = sum.wrapping_add(block_word(bytes, number, i));
    }
    sum
}

// Whether a block that is not the last does not use all its payload words, or the last uses none or too many.
#[tactic(auto, unfolding(crate::specs::Frame::wrong_used))]
pub fn wrong_used(bytes: &[u8], number: usize) -> bool
    requires { 512 * number + 512 ≤ length bytes.now }
    ensures { result ≡ wrong_used bytes.now number }
{
    let used = block_word(bytes, number, 2);
    if number + 1 < bytes.len() / 512 {
        used != 124
    } else {
        used < 1 || 124 < used
    }
}

// Whether a payload word that is not used is not 0.
pub fn rest_not_zero(bytes: &[u8], number: usize) -> bool
    requires { 512 * number + 512 ≤ length bytes.now }
    ensures { result ≡ rest_not_zero bytes.now number }
{
    let used = block_word(bytes, number, 2) as usize;
    // A `for`: with `any` over the range a goal is left that the check does not close.
    for place in used..124 {
        if block_word(bytes, number, 3 + place) != 0 {
            return true;
        }
    }
    false
}

// Any fault of a block's frame but the check. The block stands at `place`, `number` is the number that it should have, and `first` the kind of the
// file's first block.
#[tactic(auto, unfolding(crate::specs::Frame::bad_block))]
fn bad_block(bytes: &[u8], place: usize, number: usize, first: u32, kinds: Kinds) -> bool
    requires { 512 * place + 512 ≤ length bytes.now }
    ensures { result ≡ bad_block kinds.low kinds.high first number bytes.now place }
{
    let kind = block_word(bytes, place, 0);
    let stated = block_word(bytes, place, 1) as usize;
    !kinds.takes(kind)
        || kind != first
        || stated != number
        || wrong_used(bytes, place)
        || rest_not_zero(bytes, place)
}

// One block, which stands at `place`: 20 before 21.
pub fn judge_block(
    bytes: &[u8],
    place: usize,
    number: usize,
    first: u32,
    kinds: Kinds,
) -> Result<(), Refusal>
    requires { 512 * place + 512 ≤ length bytes.now }
    ensures { answer_of result ≡ judged_block kinds.low kinds.high first number bytes.now place }
{
    if block_sum(bytes, place) != 0xffff_ffff {
        return Err(Refusal::WrongBlockCheck);
    }
    if bad_block(bytes, place, number, first, kinds) {
        return Err(Refusal::BadFrame);
    }
    Ok(())
}

// The frame of a file of these kinds: its length, then its blocks in order.
pub fn judge(bytes: &[u8], kinds: Kinds) -> Result<(), Refusal>
    ensures { answer_of result ≡ frame_answer kinds.low kinds.high bytes.now }
{
    if bytes.is_empty() || bytes.len() % 512 != 0 {
        return Err(Refusal::BadFrame);
    }
    let first = block_word(bytes, 0, 0);
    for number in 0..bytes.len() / 512 {
        judge_block(bytes, number, number, first, kinds)?;
    }
    Ok(())
}
