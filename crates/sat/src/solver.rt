// The interface of a solver. Its two ghost numbers are all that it means to a caller.
ghost use Rattle.std.specs.Prelude.{◌≡◌, ℕ};
ghost use Rattle.sat.specs.Question.{Solves};

use crate::question::{Question, Refusal, Verdict};

pub trait Solver {
    // the most variables that it takes, fixed for its life
    ghost largest: { Self → ℕ };

    // the questions that it has answered, modulo 2 ^ 32
    ghost tally: { Self → ℕ };

    fn largest(&self) -> usize
        ensures { result ≡ largest self.now };

    fn tally(&self) -> u32
        ensures { result ≡ tally self.now };

    // Whether some valuation makes a literal of every clause true and keeps every assumed literal.
    // After yes `valuation` begins with one, after no with zeros.
    fn solve(&mut self, question: Question<'_>, valuation: &mut [u8]) -> Result<Verdict, Refusal>
        ensures { Solves largest tally question.entry self.old self.new valuation.old valuation.new result };
}
