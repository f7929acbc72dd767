// The words of the payloads that are written, and what one block has of them: 124 words, zeros past the end.
ghost use Rattle.std.specs.Prelude.{◌≡◌, ◌+◌, ◌<◌, ◌≤◌, List, ℕ, length, slice_index};
ghost use Rattle.tables.specs.Lists.{list_of};
ghost use Rattle.house.specs.File.{share_word};
ghost use Rattle.house.specs.Payload.{head_words, effect_payload, rendering_payload};

use crate::Contents;
use block::Block;

// Words one behind the other.
pub trait Words {
    ghost words: { Self → List ℕ };

    // Word `place`, 0 past the last.
    fn word(&self, place: usize) -> u32
        ensures { result ≡ slice_index (words self.now) place };
}

// The words that the blocks of a file hold. A trait of its own, since `share` calls a function that is generic over `Words`.
pub trait Payload: Words {
    // What a block has of them from the word `from` on.
    fn share(&self, from: usize) -> [u32; 124]
        requires { from ≤ 4294967296 }
        ensures { result ≡ list_of (share_word (Self.words self.now) from) 124 };
}

// The words from `from` on, one by one.
fn each_word<W: Words>(payload: &W, from: usize) -> [u32; 124]
    requires { from ≤ 4294967296 }
    ensures { result ≡ list_of (share_word (W.words payload.now) from) 124 }
{
    let mut words = [0u32; 124];
    for i in 0..124 {
        words[i] = payload.word(from + i);
    }
    words
}

// A rendering's samples, and how many there are.
#[derive(Clone, Copy)]
pub struct Samples<'a> {
    pub count: u32,
    pub samples: &'a [u32],
    ghost counts: { count ≡ length samples.now },
}

impl Samples<'_> {
    // The words of a block that lies among the samples: a plain copy.
    fn inner_share(&self, from: usize) -> [u32; 124]
        requires { from + 124 ≤ length self.now.samples.now }
        ensures { result ≡ list_of (share_word self.now.samples.now from) 124 }
    {
        let mut words = [0u32; 124];
        words.copy_from_slice(&self.samples[from..from + 124]);
        words
    }
}

impl Words for Samples<'_> {
    ghost words = { λ s. rendering_payload s.samples.now };

    fn word(&self, place: usize) -> u32 {
        if place == 0 {
            return self.count;
        }
        self.samples.get(place - 1).copied().unwrap_or(0)
    }
}

impl Payload for Samples<'_> {
    // The first block and the last word by word.
    fn share(&self, from: usize) -> [u32; 124] {
        if from == 0 || self.samples.len() < from + 123 {
            return each_word(self, from);
        }
        self.inner_share(from - 1)
    }
}

// An effect block, and its header and counts as the file has them.
#[derive(Clone, Copy)]
pub struct Effect<'a> {
    pub contents: Contents,
    pub block: Block<'a>,
}

// One of the nine words before an effect block's tables.
fn head_word(contents: Contents, place: usize) -> u32
    requires { place < 9 }
    ensures { result ≡ slice_index (head_words contents) place }
{
    let header = contents.header;
    let words = [
        header.version,
        header.category,
        header.channels,
        header.network,
        contents.parameters,
        contents.states,
        contents.delays,
        contents.nodes,
        header.output,
    ];
    words[place]
}

impl Words for Effect<'_> {
    ghost words = { λ e. effect_payload e.contents e.block.parameters.now e.block.states.now e.block.delays.now e.block.nodes.now };

    fn word(&self, place: usize) -> u32 {
        if place < 9 {
            return head_word(self.contents, place);
        }
        let Block {
            parameters,
            states,
            delays,
            nodes,
            ..
        } = self.block;
        let first = place - 9;
        if first < parameters.len() {
            return parameters[first];
        }
        let second = first - parameters.len();
        if second < states.len() {
            return states[second];
        }
        let third = second - states.len();
        if third < delays.len() {
            return delays[third];
        }
        nodes.get(third - delays.len()).copied().unwrap_or(0)
    }
}

impl Payload for Effect<'_> {
    fn share(&self, from: usize) -> [u32; 124] {
        each_word(self, from)
    }
}
