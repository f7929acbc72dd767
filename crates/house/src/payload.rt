// The payload of a file that is read: its words, one behind the other over all blocks.
ghost use Rattle.std.specs.Prelude.{◌≡◌, ◌+◌, ◌*◌, ◌/◌, ◌≤◌, length};
ghost use Rattle.std.proofs.lemmas.List.Edits.{sets};
ghost use Rattle.tables.specs.Lists.{list_of};
ghost use Rattle.tables.specs.Zeros.{copied};
ghost use Rattle.house.specs.Bytes.{words_from};
ghost use Rattle.house.specs.Frame.{payload_word, payload_length, section};

use crate::{frame, word_bytes};

// How many words the payload has.
pub fn payload_length(bytes: &[u8]) -> usize
    requires { 512 ≤ length bytes.now }
    ensures { result ≡ payload_length bytes.now }
{
    let last = bytes.len() / 512 - 1;
    let used = frame::block_word(bytes, last, 2) as usize;
    124 * last + used
}

// Word `place` of the payload, of those in the first block.
pub fn first_word(bytes: &[u8], place: usize) -> u32
    requires { (512 ≤ length bytes.now) × (place ≤ 123) }
    ensures { result ≡ payload_word bytes.now place }
{
    frame::block_word(bytes, 0, 3 + place)
}

// `count` words whose bytes begin at `at`, over the words of a table from `to` on.
fn copy_words(bytes: &[u8], at: usize, table: &mut [u32], to: usize, count: usize)
    requires { (at + 4 * count ≤ length bytes.now) × (to + count ≤ length table.old) }
    ensures { table.new ≡ sets table.old to (list_of (words_from bytes.now at) count) }
{
    // By index: four bytes make a word.
    for i in 0..count {
        table[to + i] = word_bytes::word(bytes, at + 4 * i);
    }
}

// `count` words of the payload, from the word `from` on, over the first words of a table. Each turn copies what one block has of them.
pub fn copy_section(bytes: &[u8], from: usize, table: &mut [u32], count: usize)
    requires { (from + count ≤ 124 * (length bytes.now / 512)) × (count ≤ length table.old) }
    ensures { table.new ≡ copied (section bytes.now from count) table.old }
{
    let mut i: usize = 0;
    // No range counts `i`: it goes up by what a block has of the section.
    while i < count {
        let number = (from + i) / 124;
        let place = (from + i) % 124;
        let here = (124 - place).min(count - i);
        copy_words(bytes, 512 * number + 12 + 4 * place, table, i, here);
        i += here;
    }
}
