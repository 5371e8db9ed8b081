// The literals of the fixed variables, each once, by rising variable.
ghost use Rattle.std.specs.Prelude.{◌≡◌, ◌≤◌, []};
ghost use Rattle.forcing.specs.Listing.{fixed_up_to};

use arrayvec::ArrayVec;
use scan::{LARGEST, Value, Values};

pub(crate) fn list_fixed(values: &Values, variables: usize, literals: &mut ArrayVec<i16, LARGEST>)
    requires small { variables ≤ LARGEST }
    requires empty { literals.old.items ≡ [] }
    ensures { literals.new.items ≡ fixed_up_to values.now.slots variables }
{
    for variable in 1..=variables {
        match values.get(variable) {
            Value::Open => {}
            Value::True => literals.push(variable as i16),
            Value::False => literals.push(-(variable as i16)),
        }
    }
}
