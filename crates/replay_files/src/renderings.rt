// Renderings, written and read back.
use crate::answer::{Answer, SAME};
use crate::table_words::Table;
use crate::{answer, table_words};
use house::{Engine, Rendering};

// Writes the first `count` samples. How many bytes were written, 0 where the writer refused.
pub fn write(engine: Engine, count: u32, file: &mut [u8]) -> usize {
    let mut samples = [0u32; 10_000];
    table_words::fill(Table::Samples, &mut samples);
    house::write_rendering(engine, answer::first(&samples, count as usize), file).unwrap_or(0)
}

// The answer on a file that should hold the first `count` samples: how many of them differ, and nothing else may.
pub fn read(engine: Engine, count: u32, file: &[u8], back: &mut [u32]) -> Answer {
    table_words::fill(Table::Lent, back);
    let expected = Rendering {
        engine,
        samples: count,
    };
    match house::read_rendering(file, back) {
        Ok(rendering) if rendering == expected => Answer::Read {
            different: table_words::differing(Table::Samples, count as usize, back),
        },
        Ok(_) => Answer::Wrong,
        Err(refusal) => answer::refused(refusal, table_words::holds(Table::Lent, 0, back)),
    }
}

// Whether so many samples are read back as they were written, and no byte and no word past them changes.
pub fn round_trip(engine: Engine, count: u32) -> bool {
    let mut file = [0xa5u8; 42_000];
    let size = write(engine, count, &mut file);
    size == house::rendering_bytes(count)
        && table_words::bytes_kept(&file, size)
        && reads_back(engine, count, answer::first(&file, size))
}

fn reads_back(engine: Engine, count: u32, file: &[u8]) -> bool {
    let mut back = [0u32; 10_100];
    read(engine, count, file, &mut back) == SAME
        && table_words::holds(Table::Samples, count as usize, &back)
}
