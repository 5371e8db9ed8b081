// How a partial valuation is altered.
ghost use Rattle.std.specs.Prelude.{◌≡◌};
ghost use Rattle.scan.specs.Edits.{put, assigned, assumed, unopposed};

use super::Values;
use crate::value::Value;

impl Values {
    // Makes a variable what is said; one that has no slot stays open.
    pub fn set(&mut self, variable: usize, value: Value)
        ensures { self.new ≡ put self.old variable value }
    {
        if variable < self.slots.len() {
            self.slots[variable] = value;
        }
    }

    // Makes a literal true.
    pub fn assign(&mut self, literal: i16)
        ensures { self.new ≡ assigned self.old literal }
    {
        self.set(
            usize::from(literal.unsigned_abs()),
            Value::that_satisfies(literal),
        );
    }

    // Makes each open literal of the list true, up to the first that is false, and says whether there is none.
    pub fn assume(&mut self, literals: &[i16]) -> bool
        ensures answers { result ≡ unopposed self.old literals.now }
        ensures leaves { self.new ≡ assumed self.old literals.now }
    {
        for &literal in literals {
            match self.read(literal) {
                Value::Open => self.assign(literal),
                Value::True => {}
                Value::False => return false,
            }
        }
        true
    }
}
