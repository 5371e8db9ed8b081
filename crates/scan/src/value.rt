// What a variable or a literal is under a partial valuation.
ghost use Rattle.std.specs.Prelude.{◌≡◌};
ghost use Rattle.scan.specs.Values.{opposite, truth};

#[derive(Clone, Copy, PartialEq, Eq, Debug)]
pub enum Value {
    Open,
    True,
    False,
}

impl Value {
    pub fn opposite(self) -> Value
        ensures { result ≡ opposite self }
    {
        match self {
            Value::Open => Value::Open,
            Value::True => Value::False,
            Value::False => Value::True,
        }
    }

    // The value of its variable that makes a literal true.
    pub fn that_satisfies(literal: i16) -> Value
        ensures { result ≡ truth literal }
    {
        if literal < 0 {
            Value::False
        } else {
            Value::True
        }
    }
}
