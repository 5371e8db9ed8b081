// Callers that know a solver by its promise alone.
ghost use Rattle.std.specs.Prelude.{◌≡◌, ◌↔◌, length, drop, is_ok, None, IsTrue};
ghost use Rattle.sat.specs.Question.{refusal_of};
ghost use Rattle.trials.specs.Answers.{Settled, counted};

use sat::{Question, Refusal, Solver, Verdict};

// Whether some valuation makes a literal of every clause true.
pub fn is_satisfiable<S: Solver>(
    solver: &mut S,
    variables: usize,
    formula: &[i16],
    valuation: &mut [u8],
) -> Result<bool, Refusal>
    ensures settles { Settled (S.Solver.largest solver.old) variables formula.now (length valuation.old) result }
    ensures counts { S.Solver.tally solver.new ≡ counted (is_ok result) (S.Solver.tally solver.old) }
    ensures behind { drop variables valuation.new ≡ drop variables valuation.old }
{
    let question = Question {
        variables,
        formula,
        assumed: &[],
    };
    let verdict = solver.solve(question, valuation)?;
    Ok(verdict == Verdict::Yes)
}

// Whether two solvers give one verdict: they do on every question that both of them take.
pub fn agree<S: Solver, T: Solver>(
    one: &mut S,
    other: &mut T,
    question: Question<'_>,
    valuation: &mut [u8],
) -> bool
    ensures { IsTrue result ↔ ((refusal_of (S.Solver.largest one.old) question.entry (length valuation.old) ≡ None) × (refusal_of (T.Solver.largest other.old) question.entry (length valuation.old) ≡ None)) }
{
    let Ok(first) = one.solve(question, valuation) else {
        return false;
    };
    let Ok(second) = other.solve(question, valuation) else {
        return false;
    };
    first == second
}
