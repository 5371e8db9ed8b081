// The search as a solver.
ghost use Rattle.std.specs.Prelude.{◌≡◌, ◌<◌, ◌≤◌, true, length};
ghost use Rattle.sat.specs.Question.{is_well_formed};
ghost use Rattle.scan.specs.Values.{read_off};
ghost use Rattle.search.specs.Answers.{Answering};

use crate::state::State;
use sat::{Question, Refusal, Solver, Verdict};
use scan::{LARGEST, Value, Values};

// Between questions a search holds the number of those that it has answered.
#[derive(Drop)]
pub struct Search {
    tally: u32,
}

impl Search {
    // The most variables that a search takes.
    pub const LARGEST: usize = scan::LARGEST;

    pub fn new() -> Search
        ensures { result.tally ≡ 0 }
    {
        Search { tally: 0 }
    }
}

// The values of the variables in a valuation that answers the question, if there is one.
fn values_for(question: Question<'_>) -> Option<Values>
    requires bounded { question.variables ≤ Search.LARGEST }
    requires formed { is_well_formed question ≡ true }
    ensures { Answering question.entry result }
{
    let mut values = Values::new();
    if !values.assume(question.assumed) {
        return None;
    }
    let mut state = State::new(question, values);
    match state.run() {
        Verdict::Yes => Some(state.values),
        Verdict::No => None,
    }
}

// Writes the values of the variables, a byte each: 1 where it is true.
fn write_values(values: &Values, valuation: &mut [u8])
    requires { length valuation.old ≤ LARGEST }
    ensures { valuation.new ≡ read_off (length valuation.old) values.now.slots }
{
    for (i, byte) in valuation.iter_mut().enumerate() {
        *byte = u8::from(values.get(i + 1) == Value::True);
    }
}

impl Solver for Search {
    ghost largest = { λ _. 1024 };

    ghost tally = { λ s. s.tally };

    fn largest(&self) -> usize {
        Self::LARGEST
    }

    fn tally(&self) -> u32 {
        self.tally
    }

    fn solve(&mut self, question: Question<'_>, valuation: &mut [u8]) -> Result<Verdict, Refusal> {
        question.judge(Self::LARGEST, valuation.len())?;
        self.tally = self.tally.wrapping_add(1);
        let front = &mut valuation[..question.variables];
        match values_for(question) {
            Some(values) => {
                write_values(&values, front);
                Ok(Verdict::Yes)
            }
            None => {
                front.fill(0);
                Ok(Verdict::No)
            }
        }
    }
}
