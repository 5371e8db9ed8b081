// The solver: it judges the question, counts it, and tries all valuations in the caller's own bytes.
ghost use Rattle.std.specs.Prelude.{◌≡◌};

use crate::count::try_all;
use sat::{Question, Refusal, Solver, Verdict};

const LARGEST: usize = 16;

#[derive(Drop)]
pub struct Odometer {
    tally: u32,
}

impl Odometer {
    pub fn new() -> Odometer
        ensures { result.tally ≡ 0 }
    {
        Odometer { tally: 0 }
    }
}

impl Solver for Odometer {
    ghost largest = { λ _. 16 };

    ghost tally = { λ s. s.tally };

    fn largest(&self) -> usize {
        LARGEST
    }

    fn tally(&self) -> u32 {
        self.tally
    }

    fn solve(&mut self, question: Question<'_>, valuation: &mut [u8]) -> Result<Verdict, Refusal> {
        question.judge(LARGEST, valuation.len())?;
        self.tally = self.tally.wrapping_add(1);
        Ok(try_all(question, &mut valuation[..question.variables]))
    }
}
