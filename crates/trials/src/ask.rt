// One question to any solver, a yes checked by evaluating.
ghost use Rattle.std.specs.Prelude.{◌≡◌, length, drop, Some};
ghost use Rattle.trials.specs.declared.ask.Failure.TheVariants.{Refused};
ghost use Rattle.trials.specs.Answers.{RightOf, counted, is_answered, failure_text};

use crate::evaluate::evaluate;
use sat::{Question, Refusal, Solver, Verdict};
use std::error::Error;
use std::fmt;

#[derive(Clone, Copy, PartialEq, Eq, Debug)]
pub enum Failure {
    Refused(Refusal),
    // a yes whose valuation does not answer the question
    Wrong,
}

impl fmt::Display for Failure {
    ghost output = { λ failure. Some (failure_text failure) };

    fn fmt<W: fmt::Write>(&self, f: &mut fmt::Formatter<W>) -> fmt::Result {
        match self {
            Failure::Refused(refusal) => write!(f, "{refusal}"),
            Failure::Wrong => write!(f, "wrong"),
        }
    }
}

impl Error for Failure {}

impl From<Refusal> for Failure {
    ghost from_gives = { λ refusal failure. failure ≡ Refused refusal };

    fn from(refusal: Refusal) -> Failure {
        Failure::Refused(refusal)
    }
}

pub fn ask<S: Solver>(
    solver: &mut S,
    question: Question<'_>,
    valuation: &mut [u8],
) -> Result<Verdict, Failure>
    ensures right { RightOf (S.Solver.largest solver.old) question.entry (length valuation.old) result }
    ensures counts { S.Solver.tally solver.new ≡ counted (is_answered result) (S.Solver.tally solver.old) }
    ensures keeps { S.Solver.largest solver.new ≡ S.Solver.largest solver.old }
    ensures behind { drop question.entry.variables valuation.new ≡ drop question.entry.variables valuation.old }
{
    match solver.solve(question, valuation)? {
        Verdict::Yes if !evaluate(question, valuation) => Err(Failure::Wrong),
        verdict => Ok(verdict),
    }
}
