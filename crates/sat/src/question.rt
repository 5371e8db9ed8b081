// A question to a solver, its verdict, and its refusals with the judgement of a question that every solver shares.
ghost use Rattle.std.specs.Prelude.{◌≡◌, ◌++◌, Some, codes, decimal};
ghost use Rattle.std.specs.Result.{result_err};
ghost use Rattle.sat.specs.Formula.{within, literals, closed};
ghost use Rattle.sat.specs.Question.{refusal_of, is_well_formed, number, word};

use std::error::Error;
use std::fmt;

#[derive(Clone, Copy)]
pub struct Question<'q> {
    // the most that a literal may name
    pub variables: usize,
    // clauses of literals, each with a 0 behind it
    pub formula: &'q [i16],
    // literals that the answer has to make true
    pub assumed: &'q [i16],
}

#[derive(Clone, Copy, PartialEq, Eq, Debug)]
pub enum Verdict {
    // no valuation answers the question
    No,
    // the valuation that is shown answers it
    Yes,
}

impl fmt::Display for Verdict {
    ghost output = { λ verdict. Some (word verdict) };

    fn fmt<W: fmt::Write>(&self, f: &mut fmt::Formatter<W>) -> fmt::Result {
        match self {
            Verdict::No => write!(f, "no"),
            Verdict::Yes => write!(f, "yes"),
        }
    }
}

#[derive(Clone, Copy, PartialEq, Eq, Debug)]
pub enum Refusal {
    // more variables than the solver's largest
    TooManyVariables,
    // a formula that does not end with 0, a literal above the variables, or an assumed 0
    IllFormed,
    // the valuation has fewer bytes than there are variables
    ShortValuation { needed: usize },
}

impl Refusal {
    pub fn number(&self) -> u8
        ensures { result ≡ number self.now }
    {
        match self {
            Refusal::TooManyVariables => 9,
            Refusal::IllFormed => 10,
            Refusal::ShortValuation { needed: _ } => 11,
        }
    }
}

impl fmt::Display for Refusal {
    ghost output = { λ refusal. Some (codes "refused " ++ decimal (number refusal)) };

    fn fmt<W: fmt::Write>(&self, f: &mut fmt::Formatter<W>) -> fmt::Result {
        let number = self.number();
        write!(f, "refused {number}")
    }
}

impl Error for Refusal {}

// No literal names a variable above `variables`.
fn is_within(variables: usize, numbers: &[i16]) -> bool
    ensures { result ≡ within variables numbers.now }
{
    numbers
        .iter()
        .all(|z| usize::from(z.unsigned_abs()) <= variables)
}

// No number of the list is 0.
fn are_literals(numbers: &[i16]) -> bool
    ensures { result ≡ literals numbers.now }
{
    numbers.iter().all(|z| *z != 0)
}

// The formula is empty or ends with 0.
fn is_closed(formula: &[i16]) -> bool
    ensures { result ≡ closed formula.now }
{
    formula.last().is_none_or(|last| *last == 0)
}

impl Question<'_> {
    fn is_well_formed(self) -> bool
        ensures { result ≡ is_well_formed self.entry }
    {
        is_closed(self.formula)
            && is_within(self.variables, self.formula)
            && is_within(self.variables, self.assumed)
            && are_literals(self.assumed)
    }

    // Declines the question where a solver of this largest does, with so many bytes for the valuation.
    pub fn judge(self, largest: usize, room: usize) -> Result<(), Refusal>
        ensures { result_err result ≡ refusal_of largest self.entry room }
    {
        if self.variables > largest {
            return Err(Refusal::TooManyVariables);
        }
        if !self.is_well_formed() {
            return Err(Refusal::IllFormed);
        }
        if room < self.variables {
            return Err(Refusal::ShortValuation {
                needed: self.variables,
            });
        }
        Ok(())
    }
}
