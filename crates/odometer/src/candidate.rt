// Whether one valuation answers a question.
ghost use Rattle.std.specs.Prelude.{◌≡◌, ◌≤◌, true, length, IfSome, IfNone};
ghost use Rattle.sat.specs.Formula.{is_true, every, clauses_of};
ghost use Rattle.odometer.specs.Candidate.{all_satisfied, answers_all, cut_satisfied};

use sat::{Question, split_clause};

// The literal is true; a variable behind the bytes counts as 0.
fn is_true(values: &[u8], z: i16) -> bool
    ensures { result ≡ is_true values.now z }
{
    let Some(place) = usize::from(z.unsigned_abs()).checked_sub(1) else {
        return false;
    };
    let byte = values.get(place).copied().unwrap_or(0);
    if z > 0 { byte == 1 } else { byte == 0 }
}

fn all_true(values: &[u8], assumed: &[i16]) -> bool
    ensures { result ≡ every (is_true values.now) assumed.now }
{
    assumed.iter().all(|z| is_true(values, *z))
}

// The numbers from the first on that is true or ends a clause.
#[tactic(auto, using(crate::proofs::Clauses::cut_end, crate::proofs::Clauses::cut_here, crate::proofs::Clauses::cut_behind, std::proofs::lemmas::Grind::common_steps))]
fn from_decisive<'f>(values: &[u8], numbers: &'f [i16]) -> Option<&'f [i16]>
    ensures none { IfNone result (all_satisfied values.now (clauses_of numbers.now) ≡ true) }
    ensures cuts { IfSome result (λ part. all_satisfied values.now (clauses_of numbers.now) ≡ cut_satisfied values.now (clauses_of part.now)) }
    ensures shorter { IfSome result (λ part. length part.now ≤ length numbers.now) }
{
    let mut rest = numbers;
    while let [z, behind @ ..] = rest {
        if *z == 0 || is_true(values, *z) {
            return Some(rest);
        }
        rest = behind;
    }
    None
}

// Every clause has a true literal: behind its first one a clause is only run on to its 0.
// Numbers behind the last 0 belong to no clause.
fn all_satisfied(values: &[u8], formula: &[i16]) -> bool
    ensures { result ≡ all_satisfied values.now (clauses_of formula.now) }
{
    let mut rest = formula;
    while let Some(part) = from_decisive(values, rest) {
        let Some((clause, behind)) = split_clause(part) else {
            return true;
        };
        if clause.is_empty() {
            return false;
        }
        rest = behind;
    }
    true
}

// The valuation makes every assumed literal true, and a literal of every clause.
pub fn answers(question: Question<'_>, values: &[u8]) -> bool
    ensures { result ≡ answers_all values.now question.entry.formula.now question.entry.assumed.now }
{
    all_true(values, question.assumed) && all_satisfied(values, question.formula)
}
