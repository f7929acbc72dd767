// The answer on a file that should hold what was written.
use answers::Refusal;

#[derive(Clone, Copy, PartialEq, Eq)]
pub enum Answer {
    // So many words were read otherwise than they were written.
    Read { different: usize },
    Refused(Refusal),
    // A refusal that changed a table, or a file that says something else than it should.
    Wrong,
}

pub const SAME: Answer = Answer::Read { different: 0 };

pub const WRONG_CHECK: Answer = Answer::Refused(Refusal::WrongBlockCheck);

pub const BAD_FRAME: Answer = Answer::Refused(Refusal::BadFrame);

// A refusal keeps every table.
pub fn refused(refusal: Refusal, kept: bool) -> Answer {
    if kept {
        Answer::Refused(refusal)
    } else {
        Answer::Wrong
    }
}

// The first items, or none where there are not so many.
pub fn first<T>(items: &[T], count: usize) -> &[T] {
    items.get(..count).unwrap_or(&[])
}
