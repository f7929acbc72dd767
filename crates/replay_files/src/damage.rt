// Files of two blocks with bits changed, and files cut short.
use crate::answer::{self, Answer, BAD_FRAME, SAME, WRONG_CHECK};
use crate::{effects, renderings};
use house::{Contents, Engine};

// What a file of two blocks holds: an effect block of 125 payload words, or a rendering of 124 samples.
#[derive(Clone, Copy)]
pub enum Subject {
    Block,
    Rendering(Engine),
}

const SAMPLES: u32 = 124;

// The answers on damaged files: how many were read, got 20, got 21, and got another answer than they should.
#[derive(Clone, Copy)]
pub struct Tally {
    pub read: u32,
    pub checks: u32,
    pub frames: u32,
    pub wrong: u32,
}

impl Tally {
    fn new() -> Tally {
        Tally {
            read: 0,
            checks: 0,
            frames: 0,
            wrong: 0,
        }
    }

    fn count(&mut self, got: Answer, expected: Answer) {
        match got {
            Answer::Read { .. } => self.read = self.read.wrapping_add(1),
            WRONG_CHECK => self.checks = self.checks.wrapping_add(1),
            BAD_FRAME => self.frames = self.frames.wrapping_add(1),
            _ => {}
        }
        if got != expected {
            self.wrong = self.wrong.wrapping_add(1);
        }
    }
}

fn contents() -> Contents {
    effects::contents(0, 1, 0, 38)
}

impl Subject {
    fn write(self, file: &mut [u8]) {
        let _ = match self {
            Subject::Block => effects::write(contents(), file),
            Subject::Rendering(engine) => renderings::write(engine, SAMPLES, file),
        };
    }

    fn read(self, file: &[u8]) -> Answer {
        match self {
            Subject::Block => effects::read(contents(), file),
            Subject::Rendering(engine) => {
                let mut back = [0u32; 130];
                renderings::read(engine, SAMPLES, file, &mut back)
            }
        }
    }

    // Every bit of a file: one bit changes the sum of its block.
    pub fn flips(self) -> Tally {
        let mut file = [0u8; 1_024];
        self.write(&mut file);
        let mut tally = Tally::new();
        for bit in 0..8_192 {
            flip(&mut file, bit);
            tally.count(self.read(&file), WRONG_CHECK);
            flip(&mut file, bit);
        }
        self.whole(tally, &file)
    }

    // Every part of a file that begins where it begins and ends before its end.
    pub fn cuts(self) -> Tally {
        let mut file = [0u8; 1_024];
        self.write(&mut file);
        let mut tally = Tally::new();
        for length in 0..1_024 {
            tally.count(self.read(answer::first(&file, length)), BAD_FRAME);
        }
        self.whole(tally, &file)
    }

    // The file itself is read, so that what was read before was damaged and nothing else was.
    fn whole(self, tally: Tally, file: &[u8]) -> Tally {
        let mut tally = tally;
        tally.count(self.read(file), SAME);
        tally
    }
}

fn mask(bit: usize) -> u8 {
    1 << (bit % 8)
}

// Bit k of word w is bit 32 w + k of the file.
fn flip(file: &mut [u8], bit: usize) {
    if let Some(byte) = file.get_mut(bit / 8) {
        *byte ^= mask(bit);
    }
}

fn is_set(file: &[u8], bit: usize) -> bool {
    file.get(bit / 8).is_some_and(|byte| *byte & mask(bit) != 0)
}

// What a rendering of 124 samples gets where two words of a block are changed and its sum is not. Kind, number and used count are
// the words 0 to 2. The first block has the sample count and then samples, the second block one sample and then zeros.
fn expected(block: usize, one: usize, other: usize) -> Answer {
    let low = one.min(other);
    let high = one.max(other);
    if low < 3 || block == 0 && low == 3 {
        return BAD_FRAME;
    }
    if block == 0 && high != 127 {
        return Answer::Read { different: 2 };
    }
    if block == 0 || low == 3 && high == 127 {
        return Answer::Read { different: 1 };
    }
    BAD_FRAME
}

// The same bit of two words of a block, where it is set in one and clear in the other.
fn pair(tally: &mut Tally, subject: Subject, word: usize, turn: usize, file: &mut [u8]) {
    let block = turn / 4_096 % 2;
    let other = turn / 32 % 128;
    let first = 4_096 * block + 32 * (word % 128) + turn % 32;
    let second = 4_096 * block + 32 * other + turn % 32;
    if is_set(file, first) == is_set(file, second) {
        return;
    }
    flip(file, first);
    flip(file, second);
    tally.count(subject.read(file), expected(block, word, other));
    flip(file, first);
    flip(file, second);
}

// A word of either block of a rendering with every other word of it.
pub fn pairs(engine: Engine, word: usize) -> Tally {
    let subject = Subject::Rendering(engine);
    let mut file = [0u8; 1_024];
    subject.write(&mut file);
    let mut tally = Tally::new();
    for turn in 0..8_192 {
        pair(&mut tally, subject, word, turn, &mut file);
    }
    subject.whole(tally, &file)
}
