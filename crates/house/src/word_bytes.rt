// Little-endian words in bytes. Four bytes one by one, which the compiler joins to one load or store.
ghost use Rattle.std.specs.Prelude.{◌≡◌, ◌+◌, ◌<◌, length};
ghost use Rattle.std.proofs.lemmas.List.Edits.{sets};
ghost use Rattle.house.specs.Bytes.{word_from, four_bytes};

// The word whose first byte is at `at`.
pub fn word(bytes: &[u8], at: usize) -> u32
    requires { at + 3 < length bytes.now }
    ensures { result ≡ word_from bytes.now at }
{
    u32::from_le_bytes([bytes[at], bytes[at + 1], bytes[at + 2], bytes[at + 3]])
}

// A word over the four bytes from `at` on.
pub fn put(bytes: &mut [u8], at: usize, value: u32)
    requires { at + 3 < length bytes.old }
    ensures { bytes.new ≡ sets bytes.old at (four_bytes value) }
{
    bytes[at..at + 4].copy_from_slice(&value.to_le_bytes());
}
