// The house file of document 01 ("House file"), block by block: a file of any length is judged, read and written without being kept. That this gives
// what the functions of `house` give for the whole file is proved.
#![tactic(auto)]

mod compare;

ghost use Rattle.std.specs.Prelude.{◌≡◌, List, [], ◌++◌, ℕ, ◌+◌, ◌*◌, ◌≤◌, ◌<◌, min, length};
ghost use Rattle.std.proofs.lemmas.List.Edits.{sets};
ghost use Rattle.house.specs.Bytes.{bytes_of};
ghost use Rattle.house.specs.File.{padded, block_words};
ghost use Rattle.house.specs.Payload.{kind_of};

use answers::Refusal;
use house::frame::{self, Kinds};
use house::{Engine, blocks};

// What is kept of the whole blocks seen so far: their count, the first one's kind, the used count of the last, and the number of the first fault, where the
// last one is judged as the last of the file.
#[derive(Clone, Copy, Debug, PartialEq, Eq)]
pub struct Framed {
    pub blocks: usize,
    pub kind: u32,
    pub used: u32,
    // A number, no Result, for `one_more` and `answer_in` are promised of every value: 0 where all is accepted, else the number of document 01.
    pub fault: u32,
}

// A block is 512 bytes by a `requires`, and no type of arrays: a program reads it into a part of its buffer.
impl Framed {
    ghost use Rattle.house.specs.Frame.{graph_kind, step_kind, frame_answer, payload_length, payload_word};
    ghost use Rattle.stream.specs.Stream.{fault_of, framed_of, first_kind, short_before, next_fault, one_more, answer_in, payload_words, rendering_frame, rendering_answer_in};

    // Before the first block.
    pub fn new() -> Framed
        ensures { (low high : ℕ) → result ≡ framed_of low high [] }
    {
        Framed {
            blocks: 0,
            kind: 0,
            used: 0,
            fault: 0,
        }
    }

    // The kind of the file's first block, which may be this one.
    #[tactic(auto, unfolding(crate::specs::Stream::first_kind))]
    fn first_kind(self, block: &[u8]) -> u32
        requires { length block.now ≡ 512 }
        ensures { result ≡ first_kind self block.now }
    {
        if self.blocks == 0 {
            frame::block_word(block, 0, 0)
        } else {
            self.kind
        }
    }

    // Whether the block before is not the last any more, and does not use all its payload words.
    #[tactic(auto, unfolding(crate::specs::Stream::short_before))]
    fn short_before(self) -> bool
        ensures { result ≡ short_before self }
    {
        self.blocks != 0 && self.used != 124
    }

    // The number of the first fault with this block: the one so far, else 21 for the block before, else the block's own.
    fn next_fault(self, first: u32, block: &[u8], kinds: Kinds) -> u32
        requires { length block.now ≡ 512 }
        ensures { result ≡ next_fault kinds.low kinds.high self first block.now }
    {
        if self.fault != 0 {
            return self.fault;
        }
        if self.short_before() {
            return Refusal::BadFrame.number();
        }
        match frame::judge_block(block, 0, self.blocks, first, kinds) {
            Ok(()) => 0,
            Err(refusal) => refusal.number(),
        }
    }

    // One block more, for a reader that takes these kinds. The bound on the count leaves room for the count of payload words.
    pub fn next(self, block: &[u8], kinds: Kinds) -> Framed
        requires { (length block.now ≡ 512) × (self.blocks < 1099511627776) }
        ensures kept { result ≡ one_more kinds.low kinds.high self block.now }
        ensures of_bytes { (bytes : List ℕ) → length bytes ≡ 512 * self.blocks → self ≡ framed_of kinds.low kinds.high bytes
            → result ≡ framed_of kinds.low kinds.high (bytes ++ block.now) }
    {
        let kind = self.first_kind(block);
        Framed {
            blocks: self.blocks + 1,
            kind,
            used: frame::block_word(block, 0, 2),
            fault: self.next_fault(kind, block, kinds),
        }
    }

    // The number of the frame's answer, 0 where it is accepted: `left` bytes are left behind the last whole block.
    pub fn answer(self, left: usize) -> u32
        ensures kept { result ≡ answer_in self left }
        ensures of_bytes { (low high : ℕ) (bytes rest : List ℕ) → length bytes ≡ 512 * self.blocks → self ≡ framed_of low high bytes → length rest ≡ left
            → left < 512 → result ≡ fault_of (frame_answer low high (bytes ++ rest)) }
    {
        if self.blocks == 0 || left != 0 {
            return Refusal::BadFrame.number();
        }
        self.fault
    }

    // How many words the payload has.
    pub fn payload_words(self) -> usize
        requires { self.blocks ≤ 1099511627776 }
        ensures kept { result ≡ payload_words self }
        ensures of_bytes { (low high : ℕ) (bytes : List ℕ) → self ≡ framed_of low high bytes → result ≡ payload_length bytes }
    {
        124 * self.blocks.saturating_sub(1) + self.used as usize
    }

    // The number of the answer to a rendering's frame, 0 where it is accepted: `samples` is the first word of its payload.
    pub fn rendering_answer(self, left: usize, samples: u32) -> u32
        requires { self.blocks ≤ 1099511627776 }
        ensures kept { result ≡ rendering_answer_in self left samples }
        ensures of_bytes { (bytes rest : List ℕ) → length bytes ≡ 512 * self.blocks → self ≡ framed_of graph_kind step_kind bytes → length rest ≡ left
            → left < 512 → samples ≡ payload_word bytes 0 → result ≡ fault_of (rendering_frame (bytes ++ rest)) }
    {
        let fault = self.answer(left);
        if fault != 0 {
            return fault;
        }
        if self.payload_words() != 1 + samples as usize {
            return Refusal::BadFrame.number();
        }
        0
    }
}

// A block's payload: the words, and zeros behind them.
fn padded(words: &[u32]) -> [u32; 124]
    requires { length words.now ≤ 124 }
    ensures { result ≡ padded words.now }
{
    let mut payload = [0u32; 124];
    payload[..words.len()].copy_from_slice(words);
    payload
}

// One block of a rendering's file over the first 512 bytes lent: `words` is its share of the payload, which in block 0 begins with the sample count.
pub fn rendering_block(engine: Engine, number: u32, words: &[u32], bytes: &mut [u8])
    requires { (length words.now ≤ 124) × (512 ≤ length bytes.old) }
    ensures { bytes.new ≡ sets bytes.old 0 (bytes_of (block_words (kind_of engine) number words.now)) }
{
    let used = words.len() as u32;
    let payload = padded(words);
    blocks::put_block(bytes, 0, u32::from(engine), number, used, payload);
}

// What is kept of a comparison of two renderings after equally many blocks of each: how many samples are equal before the first that differs, and the two
// words of that one, 0 while there is none.
#[derive(Clone, Copy, Debug, PartialEq, Eq)]
pub struct Comparison {
    pub pairs: usize,
    pub equal: usize,
    pub one: u32,
    pub two: u32,
}

// How two renderings differ: not at all, in a sample, or in that the shorter one ends.
#[derive(Clone, Copy, Debug, PartialEq, Eq)]
pub enum Difference {
    Nothing,
    Sample { place: usize, one: u32, two: u32 },
    Ends { place: usize },
}

impl Comparison {
    ghost use Rattle.house.specs.Payload.{rendering_in};
    ghost use Rattle.stream.specs.Compare.{difference_at, difference, samples_in, comparison_of, pair_more};

    // Before the first pair of blocks.
    pub fn new() -> Comparison
        ensures { result ≡ comparison_of [] [] }
    {
        Comparison {
            pairs: 0,
            equal: 0,
            one: 0,
            two: 0,
        }
    }

    // One pair of blocks more.
    pub fn next(self, a: &[u8], b: &[u8]) -> Comparison
        requires { (length a.now ≡ 512) × (length b.now ≡ 512) × (self.pairs < 1099511627776) }
        ensures kept { result ≡ pair_more self a.now b.now }
        ensures of_bytes { (x y : List ℕ) → length x ≡ 512 * self.pairs → length y ≡ 512 * self.pairs → self ≡ comparison_of x y
            → result ≡ comparison_of (x ++ a.now) (y ++ b.now) }
    {
        let pairs = self.pairs + 1;
        let seen = compare::samples_in(self.pairs);
        // No Option of a sample in place of `equal` and the words: `pair_more` is promised of every value, also where `equal` is no first difference.
        if self.equal < seen {
            return Comparison { pairs, ..self };
        }
        let from = compare::first_place(self.pairs);
        let more = compare::equal_words(a, b, from);
        let place = from + more;
        Comparison {
            pairs,
            equal: seen + more,
            one: compare::word_or(a, place),
            two: compare::word_or(b, place),
        }
    }

    // What the comparison tells at the end, of renderings with so many samples. The pairs must hold those that both have: all blocks of one file do.
    pub fn end(self, first: u32, second: u32) -> Difference
        ensures kept { result ≡ difference_at first second self.equal self.one self.two }
        ensures of_bytes { (x y u v : List ℕ) → length x ≡ 512 * self.pairs → length y ≡ 512 * self.pairs → self ≡ comparison_of x y
            → first ≡ (rendering_in (x ++ u)).samples → second ≡ (rendering_in (y ++ v)).samples → min first second ≤ samples_in self.pairs
            → result ≡ difference (x ++ u) (y ++ v) }
    {
        let end = first.min(second) as usize;
        if self.equal < end {
            return Difference::Sample {
                place: self.equal,
                one: self.one,
                two: self.two,
            };
        }
        if first == second {
            return Difference::Nothing;
        }
        Difference::Ends { place: end }
    }
}
