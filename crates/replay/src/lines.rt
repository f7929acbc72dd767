// Lines of 37 bytes: a name, told by its first letter, and three words of eight hex digits.
ghost use Rattle.std.specs.Prelude.{◌≤◌, ◌<◌};

use crate::store::{Record, Table};
use std::io::{self, ErrorKind, Read};

// What a line says.
#[derive(Clone, Copy)]
pub enum Line {
    Comment,
    // A name that no table has.
    Unknown,
    Record(Record),
    // The record of the line above again, so many times.
    Repeat { times: u32 },
    Answer(Answer),
}

// The Rust's answer: 0 and two words, or a refusal's number and its value.
#[derive(Clone, Copy)]
pub struct Answer {
    pub number: u32,
    pub second: u32,
    pub third: u32,
}

// The value of a hex digit, 0x30 to 0x39 or 0x61 to 0x66.
fn digit(byte: u8) -> u32
    ensures { result < 16 }
{
    (byte % 16 + byte / 64 * 9) as u32 % 16
}

// The word of the eight hex digits at `at`, two at a time.
fn word_at(bytes: &[u8; 37], at: usize) -> u32
    requires { at ≤ 29 }
{
    let mut word = 0;
    for k in 0..4 {
        let place = at + 2 * k;
        let pair = digit(bytes[place]) * 16 + digit(bytes[place + 1]);
        word = word % 0x100_0000 * 256 + pair;
    }
    word
}

// The record of a line with this name, whose first `width` words are of the table.
fn record_of(name: u8, words: [u32; 3]) -> Option<Record> {
    let (table, width) = match name {
        b'e' => (Table::Expanded, 3),
        b'n' => (Table::Nodes, 3),
        b'p' => (Table::Parameters, 3),
        b's' => (Table::States, 2),
        b'd' => (Table::Delays, 2),
        b'b' | b'f' => (Table::Header, 3),
        b'g' => (Table::Given, 3),
        b'l' => (Table::Steps, 2),
        b'i' => (Table::Instructions, 2),
        b'c' | b'k' => (Table::Counts, 3),
        _ => return None,
    };
    Some(Record {
        table,
        words,
        width,
    })
}

// One word of the table of this number.
fn one_word(table: u32, word: u32) -> Option<Record> {
    let table = Table::numbered(table)?;
    Some(Record {
        table,
        words: [word, 0, 0],
        width: 1,
    })
}

fn parsed(name: u8, words: [u32; 3]) -> Line {
    let [first, second, third] = words;
    let record = match name {
        b'a' => {
            return Line::Answer(Answer {
                number: first,
                second,
                third,
            });
        }
        b'r' => return Line::Repeat { times: first },
        b'w' => one_word(first, second),
        _ => record_of(name, words),
    };
    match record {
        Some(record) => Line::Record(record),
        None => Line::Unknown,
    }
}

// The next line of the input, if there is one; a line that begins with the byte 0 ends it too. An error is the reader's own, handed on; no other comes,
// and nothing but the reader is lent.
pub fn read<R: Read>(input: &mut R) -> io::Result<Option<Line>> {
    let mut bytes = [0u8; 37];
    if let Err(error) = input.read_exact(&mut bytes) {
        if error.kind() == ErrorKind::UnexpectedEof {
            return Ok(None);
        }
        return Err(error);
    }
    match bytes[0] {
        0 => Ok(None),
        b'#' => Ok(Some(Line::Comment)),
        name => {
            let words = [
                word_at(&bytes, 10),
                word_at(&bytes, 19),
                word_at(&bytes, 28),
            ];
            Ok(Some(parsed(name, words)))
        }
    }
}
