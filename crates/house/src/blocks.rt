// Writing the blocks of a file: a block's payload as an array of 124 words, then its bytes (document 01, "House file").
ghost use Rattle.std.specs.Prelude.{◌≡◌, ◌+◌, ◌-◌, ◌*◌, ◌<◌, ◌≤◌, min, ◌∷◌, length};
ghost use Rattle.std.proofs.lemmas.List.Edits.{sets};
ghost use Rattle.house.specs.Bytes.{bytes_of, wrapping_sum};
ghost use Rattle.tables.specs.Zeros.{copied};
ghost use Rattle.house.specs.File.{closed, blocks_for, file_of, file_length};

use crate::gather::Payload;
use crate::word_bytes;

// The wrapping sum of a block's payload.
fn payload_sum(payload: [u32; 124]) -> u32
    ensures { result ≡ wrapping_sum payload }
{
    payload
        .iter()
        .fold(0u32, |sum, word| sum.wrapping_add(*word))
}

// The bytes of words, from `at` on.
fn put_words(bytes: &mut [u8], at: usize, words: &[u32])
    requires { at + 4 * length words.now ≤ length bytes.old }
    ensures { bytes.new ≡ sets bytes.old at (bytes_of words.now) }
{
    for (i, word) in words.iter().enumerate() {
        word_bytes::put(bytes, at + 4 * i, *word);
    }
}

// The payload's bytes, from `at` on: the used words, then the rest. A loop of 124 turns would be unrolled whole, which is slower than two loops whose turns
// are only known when they run.
fn put_payload(bytes: &mut [u8], at: usize, payload: [u32; 124], used: u32)
    requires { at + 496 ≤ length bytes.old }
    ensures { bytes.new ≡ sets bytes.old at (bytes_of payload) }
{
    let count = (used as usize).min(124);
    put_words(bytes, at, &payload[..count]);
    put_words(bytes, at + 4 * count, &payload[count..]);
}

// A whole block, from `at` on: kind, number, used count, payload, and the check that makes the wrapping sum all ones.
pub fn put_block(
    bytes: &mut [u8],
    at: usize,
    kind: u32,
    number: u32,
    used: u32,
    payload: [u32; 124],
)
    requires { at + 512 ≤ length bytes.old }
    ensures { bytes.new ≡ sets bytes.old at (bytes_of (closed (kind ∷ number ∷ used ∷ payload))) }
{
    let head = kind.wrapping_add(number).wrapping_add(used);
    let sum = head.wrapping_add(payload_sum(payload));
    word_bytes::put(bytes, at, kind);
    word_bytes::put(bytes, at + 4, number);
    word_bytes::put(bytes, at + 8, used);
    put_payload(bytes, at + 12, payload, used);
    word_bytes::put(bytes, at + 508, 0xffff_ffff - sum);
}

// How many blocks a payload of `count` words needs.
pub fn blocks_for(count: usize) -> usize
    requires { count < 1099511627776 }
    ensures { result ≡ blocks_for count }
{
    (count + 123) / 124
}

// How many words of a payload of `count` the block that starts at the word `from` has.
fn used_words(count: usize, from: usize) -> u32
    requires { from ≤ count }
    ensures { result ≡ min 124 (count - from) }
{
    (count - from).min(124) as u32
}

// The file of a payload of `count` words over the first bytes lent.
pub fn write_file<P: Payload>(kind: u32, count: usize, payload: &P, bytes: &mut [u8])
    requires counts { count ≡ length (P.words payload.now) }
    requires small { count ≤ 4294967296 }
    requires room { file_length (length (P.words payload.now)) ≤ length bytes.old }
    ensures { bytes.new ≡ copied (file_of kind (P.words payload.now)) bytes.old }
{
    for b in 0..blocks_for(count) {
        let from = 124 * b;
        let used = used_words(count, from);
        let share = payload.share(from);
        put_block(bytes, 512 * b, kind, b as u32, used, share);
    }
}
