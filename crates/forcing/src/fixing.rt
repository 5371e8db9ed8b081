// Fixing what assumed literals force.
ghost use Rattle.std.specs.Prelude.{◌≡◌, ◌≤◌, true, []};
ghost use Rattle.sat.specs.Formula.{within};
ghost use Rattle.sat.specs.Question.{is_well_formed};
ghost use Rattle.forcing.specs.Fixing.{Forces, Fixes};

use crate::listing::list_fixed;
use arrayvec::ArrayVec;
use sat::Question;
use scan::{LARGEST, Telling, Values, look_around};

// Makes the last open literal of a clause true whose others are false, until no clause tells anything more,
// and says whether none is all false. Each look begins where the last one stopped.
fn force(values: &mut Values, formula: &[i16]) -> bool
    requires { within LARGEST formula.now ≡ true }
    ensures { Forces formula.now values.old.slots values.new.slots result }
{
    let mut place = 0;
    loop {
        let round = look_around(values, formula, place);
        place = round.next;
        match round.found {
            None => return true,
            Some(Telling::Conflict) => return false,
            Some(Telling::Forced(literal)) => values.assign(literal),
        }
    }
}

// Lists the literals that are fixed and says true, or says false where assumed literals are opposed or a clause is all false.
pub(crate) fn fix(question: Question<'_>, fixed: &mut ArrayVec<i16, LARGEST>) -> bool
    requires small { question.variables ≤ LARGEST }
    requires formed { is_well_formed question ≡ true }
    requires empty { fixed.old.items ≡ [] }
    ensures { Fixes question.entry fixed.new.items result }
{
    let mut values = Values::new();
    if values.assume(question.assumed) && force(&mut values, question.formula) {
        list_fixed(&values, question.variables, fixed);
        true
    } else {
        false
    }
}
