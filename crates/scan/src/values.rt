// A partial valuation of up to LARGEST variables.
ghost use Rattle.std.specs.Prelude.{◌≡◌, length, replicate, slice_index_or};
ghost use Rattle.scan.specs.Values.{reads};

use crate::value::Value;

mod edits;

// The most variables of a partial valuation.
pub const LARGEST: usize = 1024;

const SLOTS: usize = LARGEST + 1;

// Variable n stands in slot n; slot 0 is that of no variable.
#[derive(Clone, Copy)]
pub struct Values {
    slots: [Value; SLOTS],
    // an array behind a reference tells its length only where it is read
    ghost long: { length slots ≡ 1025 },
}

impl Values {
    // Every variable is open.
    pub fn new() -> Values
        ensures { result.slots ≡ replicate 1025 Value.Open }
    {
        Values {
            slots: [Value::Open; SLOTS],
        }
    }

    // What a variable is; one that has no slot is open.
    pub fn get(&self, variable: usize) -> Value
        ensures { result ≡ slice_index_or self.now.slots variable Value.Open }
    {
        self.slots.get(variable).copied().unwrap_or(Value::Open)
    }

    // What a literal is; 0 is no literal and is open.
    pub fn read(&self, literal: i16) -> Value
        ensures { result ≡ reads self.now.slots literal }
    {
        let value = self.get(usize::from(literal.unsigned_abs()));
        if literal > 0 {
            value
        } else if literal < 0 {
            value.opposite()
        } else {
            Value::Open
        }
    }
}
