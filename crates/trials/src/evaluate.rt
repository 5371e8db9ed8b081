// Evaluating a question under the valuation with which a buffer begins.
ghost use Rattle.std.specs.Prelude.{◌≤◌, ◌↔◌, take, IsTrue, All};
ghost use Rattle.sat.specs.Question.{Answers};

use odometer::answers;
use sat::Question;

fn all_bits(values: &[u8]) -> bool
    ensures { IsTrue result ↔ All (λ byte. byte ≤ 1) values.now }
{
    values.iter().all(|byte| *byte <= 1)
}

// The first bytes of the buffer are a valuation that answers the question.
pub fn evaluate(question: Question<'_>, valuation: &[u8]) -> bool
    ensures { IsTrue result ↔ Answers question.entry (take question.entry.variables valuation.now) }
{
    let Some(values) = valuation.get(..question.variables) else {
        return false;
    };
    all_bits(values) && answers(question, values)
}
