// Replays the Rust's answers on the word operations: reads records of 32 bytes from standard input,
// whose first lines say what they hold, and prints each one that is not ours, and a count of them.
#![tactic(auto)]

ghost use Rattle.std.specs.Prelude.{◌≤◌, ◌<◌};

use std::io::{self, ErrorKind, Read};

// The value of a hex digit, 0 of any other byte. Not that of crate replay: there a byte that is no digit is another number, and both programs do what they
// did on every input.
fn digit(byte: u8) -> u32
    ensures { result < 16 }
{
    match byte {
        b'0'..=b'9' => (byte - b'0') as u32,
        b'a'..=b'f' => (byte - b'a') as u32 + 10,
        _ => 0,
    }
}

// The word of the eight hex digits at `at`.
fn word_at(line: &[u8; 32], at: usize) -> u32
    requires { at ≤ 24 }
{
    let mut word = 0;
    for k in 0..8 {
        word = word % 0x1000_0000 * 16 + digit(line[at + k]);
    }
    word
}

// Whether our answer is the record's; a name that is none of these is a difference.
fn agrees(line: &[u8; 32]) -> bool {
    let a = word_at(line, 5);
    let b = word_at(line, 14);
    let c = word_at(line, 23);
    match &[line[0], line[1], line[2], line[3]] {
        b"add " => words::add(a, b) == c,
        b"sub " => words::sub(a, b) == c,
        b"mul " => words::mul(a, b) == c,
        b"min " => words::min(a, b) == c,
        b"max " => words::max(a, b) == c,
        b"neg " => words::neg(a) == c,
        b"abs " => words::abs(a) == c,
        b"isub" => words::integer_sub(a, b) == c,
        b"fin " => words::is_finite(a) == (c == 1),
        b"good" => words::span_is_valid(a, b, c),
        b"bad " => !words::span_is_valid(a, b, c),
        b"in  " => words::in_range(a, b, c),
        b"out " => !words::in_range(a, b, c),
        _ => false,
    }
}

#[derive(Clone, Copy)]
struct Tally {
    vectors: u64,
    differences: u64,
}

// The next record of the input, if there is one. Of its own, since the crate replay, which reads lines of blocks, would bring blocks with it for these few lines.
fn read<R: Read>(input: &mut R) -> io::Result<Option<[u8; 32]>> {
    let mut line = [0u8; 32];
    if let Err(error) = input.read_exact(&mut line) {
        if error.kind() == ErrorKind::UnexpectedEof {
            return Ok(None);
        }
        return Err(error);
    }
    Ok(Some(line))
}

// A proved loop has to end, and nothing says that the input does: so it reads so many records at most.
fn replay(rt: &(impl Input + Print)) -> io::Result<Tally> {
    let mut input = rt.reader();
    let mut tally = Tally {
        vectors: 0,
        differences: 0,
    };
    for _ in 0..1_000_000 {
        let Some(line) = read(&mut input)? else {
            break;
        };
        if line[0] == b'#' {
            continue;
        }
        tally.vectors = tally.vectors.wrapping_add(1);
        if !agrees(&line) {
            rt.write_all(&line)?;
            tally.differences = tally.differences.wrapping_add(1);
        }
    }
    Ok(tally)
}

fn main(rt: HostRuntime) -> io::Result<()> {
    let tally = replay(&rt)?;
    println!(rt;
        "words: {} vectors, {} differences",
        tally.vectors, tally.differences
    )
}
