// The layer: it holds the solver below and a tally of its own.
ghost use Rattle.std.specs.Prelude.{◌≡◌, min};

use crate::fixing::fix;
use arrayvec::ArrayVec;
use sat::{Question, Refusal, Solver, Verdict};
use scan::LARGEST;

#[derive(Drop)]
pub struct Forcing<S> {
    below: S,
    tally: u32,
}

impl<S> Forcing<S> {
    pub fn new(below: S) -> Forcing<S>
        ensures over { result.below ≡ below }
        ensures unasked { result.tally ≡ 0 }
    {
        Forcing { below, tally: 0 }
    }

    // The solver below, as for a look at its tally.
    pub fn below(&self) -> &S
        ensures { result.now ≡ self.now.below }
    {
        &self.below
    }
}

impl<S: Solver> Solver for Forcing<S> {
    ghost largest = { λ s. min 1024 (S.Solver.largest s.below) };

    ghost tally = { λ s. s.tally };

    fn largest(&self) -> usize {
        LARGEST.min(self.below.largest())
    }

    fn tally(&self) -> u32 {
        self.tally
    }

    fn solve(&mut self, question: Question<'_>, valuation: &mut [u8]) -> Result<Verdict, Refusal> {
        question.judge(self.largest(), valuation.len())?;
        self.tally = self.tally.wrapping_add(1);
        let mut fixed = ArrayVec::new();
        if fix(question, &mut fixed) {
            self.below.solve(
                Question {
                    assumed: &fixed,
                    ..question
                },
                valuation,
            )
        } else {
            valuation[..question.variables].fill(0);
            Ok(Verdict::No)
        }
    }
}
