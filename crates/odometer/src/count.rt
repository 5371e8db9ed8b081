// Counting in bytes of 0 and 1, the lowest place first, and trying every valuation on the way.
ghost use Rattle.std.specs.Prelude.{◌≡◌, length, Ok};
ghost use Rattle.sat.specs.Question.{Truth};
ghost use Rattle.odometer.specs.Counter.{next, has_zero};

use crate::candidate::answers;
use sat::{Question, Verdict};

// One further; false where all bytes were 1 and have wrapped to 0.
#[tactic(auto, using(crate::proofs::Counts::next_stops))]
fn advance(values: &mut [u8]) -> bool
    ensures moves { values.new ≡ next values.old }
    ensures tells { result ≡ has_zero values.old }
{
    for byte in values.iter_mut() {
        if *byte == 0 {
            *byte = 1;
            return true;
        }
        *byte = 0;
    }
    false
}

// Tries the valuations from all 0 on, until one answers or the count has wrapped to all 0.
#[tactic(auto, using(crate::proofs::Counts::next_last, crate::proofs::Counts::none_left, crate::proofs::Clauses::models_from_answers))]
pub(crate) fn try_all(question: Question<'_>, values: &mut [u8]) -> Verdict
    ensures { Truth (length values.old) question.entry.formula.now question.entry.assumed.now values.new (Ok result) }
{
    values.fill(0);
    while !answers(question, values) {
        if !advance(values) {
            return Verdict::No;
        }
    }
    Verdict::Yes
}
