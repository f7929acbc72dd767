// A pair of blocks of two renderings: the first sample of theirs that differs.
ghost use Rattle.std.specs.Prelude.{◌≡◌, ◌-◌, ◌≤◌, length};
ghost use Rattle.stream.specs.Compare.{first_of, samples_in, first_place, words_differ, word_or};

use house::payload;

// How many samples so many blocks hold.
#[tactic(auto, unfolding(crate::specs::Compare::samples_in))]
pub fn samples_in(blocks: usize) -> usize
    requires { blocks ≤ 1099511627776 }
    ensures { result ≡ samples_in blocks }
{
    (124 * blocks).saturating_sub(1)
}

// The first payload word that is a sample, in the block behind so many.
#[tactic(auto, unfolding(crate::specs::Compare::first_place))]
pub fn first_place(blocks: usize) -> usize
    ensures { result ≡ first_place blocks }
{
    if blocks == 0 { 1 } else { 0 }
}

// How many payload words from `from` on are equal in two blocks, before the first that differs.
pub fn equal_words(a: &[u8], b: &[u8], from: usize) -> usize
    requires { (length a.now ≡ 512) × (length b.now ≡ 512) × (from ≤ 1) }
    ensures { result ≡ first_of (words_differ a.now b.now from) (124 - from) }
{
    // A `for`: with `find` over the range a goal is left that the check does not close.
    for i in 0..124 - from {
        let place = from + i;
        if payload::first_word(a, place) != payload::first_word(b, place) {
            return i;
        }
    }
    124 - from
}

// A payload word of a block, 0 past its last.
#[tactic(auto, unfolding(crate::specs::Compare::word_or))]
pub fn word_or(block: &[u8], place: usize) -> u32
    requires { length block.now ≡ 512 }
    ensures { result ≡ word_or block.now place }
{
    if place < 124 {
        payload::first_word(block, place)
    } else {
        0
    }
}
