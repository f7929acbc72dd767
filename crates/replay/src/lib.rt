// What the programs that replay blocks and compiles share: the lines that they read, the tables that these fill, and the count of what agrees.
#![tactic(auto)]

pub mod lines;
pub mod store;

ghost use Rattle.std.specs.Prelude.{◌≡◌, ◌≤◌, ◌↔◌, EachIndex, IsTrue, length, slice_index};
ghost use Rattle.answers.specs.Numbers.{number_of, first_value};

use answers::Refusal;
use lines::{Answer, Line};
use std::io;
use store::{Store, Table};

// How many answers were read: of those that ours agrees with how many accept, how many steps they list, and how many refuse, and how many differ.
#[derive(Clone, Copy)]
pub struct Tally {
    pub seen: u64,
    pub accepted: u64,
    pub steps: u64,
    pub refused: u64,
    pub differences: u64,
}

// Whether an answer is the refusal: its number and its value.
pub fn is_refusal(refusal: Refusal, answer: Answer) -> bool
    ensures { IsTrue result ↔ ((number_of refusal ≡ answer.number) × (first_value refusal ≡ answer.second)) }
{
    refusal.number() == answer.number && refusal.value() == answer.second as u64
}

// Whether a table holds the words that were told, and behind them what `behind` says of each place.
pub fn holds<F: Fn(usize) -> u32>(table: &[u32], told: &[u32], behind: F) -> bool
    requires { F.IsAlwaysCallable behind }
    ensures room { IsTrue result → length told.now ≤ length table.now }
    ensures words { IsTrue result → EachIndex told.now (λ k. slice_index table.now k ≡ slice_index told.now k) }
{
    for (at, word) in table.iter().enumerate() {
        let expected = match told.get(at) {
            Some(expected) => *expected,
            None => behind(at),
        };
        // A `for`, whose invariant is the clause `words` as far as it has come.
        if *word != expected {
            return false;
        }
    }
    told.len() <= table.len()
}

impl Tally {
    fn new() -> Tally {
        Tally {
            seen: 0,
            accepted: 0,
            steps: 0,
            refused: 0,
            differences: 0,
        }
    }

    // One answer more, to a call that lists so many steps.
    fn count(&mut self, accepted: bool, steps: usize, agrees: bool) {
        self.seen = self.seen.wrapping_add(1);
        if !agrees {
            self.differences = self.differences.wrapping_add(1);
        } else if accepted {
            self.accepted = self.accepted.wrapping_add(1);
            self.steps = self.steps.wrapping_add(steps as u64);
        } else {
            self.refused = self.refused.wrapping_add(1);
        }
    }
}

// Reads lines to the input's end. An answer is held to ours, printed where it differs, and empties the tables; every other line adds to them.
// A proved loop has to end, and nothing says that the input does: so it reads so many lines at most.
pub fn replay<F: Fn(&Store, Answer) -> bool>(
    rt: &(impl Input + Print),
    subject: &str,
    agrees: F,
) -> io::Result<Tally>
    requires { F.IsAlwaysCallable agrees }
{
    let mut input = rt.reader();
    let mut store = Store::new();
    let mut tally = Tally::new();
    let mut last = None;
    for _ in 0..1_000_000 {
        let Some(line) = lines::read(&mut input)? else {
            break;
        };
        match line {
            Line::Comment => {}
            Line::Unknown => last = None,
            Line::Record(record) => {
                store.add(record, 1);
                last = Some(record);
            }
            Line::Repeat { times } => {
                if let Some(record) = last {
                    store.add(record, times);
                }
            }
            Line::Answer(answer) => {
                let agreed = agrees(&store, answer);
                tally.count(
                    answer.number == 0,
                    store.table(Table::Steps).len() / 2,
                    agreed,
                );
                if !agreed {
                    println!(rt; "{subject} {} differs", tally.seen)?;
                }
                store.clear();
            }
        }
    }
    Ok(tally)
}
