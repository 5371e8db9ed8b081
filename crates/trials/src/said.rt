// What a solver said of a question, as it is printed.
ghost use Rattle.std.specs.Prelude.{◌≡◌, Some};
ghost use Rattle.trials.specs.Answers.{told, said_text};

use crate::ask::Failure;
use sat::{Refusal, Verdict};
use std::fmt;

#[derive(Clone, Copy)]
pub struct Said(pub Result<Verdict, Failure>);

impl fmt::Display for Said {
    ghost output = { λ said. Some (said_text said.0) };

    fn fmt<W: fmt::Write>(&self, f: &mut fmt::Formatter<W>) -> fmt::Result {
        match self.0 {
            Ok(verdict) => write!(f, "{verdict}"),
            Err(failure) => write!(f, "{failure}"),
        }
    }
}

// What a caller that asks for true or false was told.
impl From<Result<bool, Refusal>> for Said {
    ghost from_gives = { λ outcome said. said.0 ≡ told outcome };

    fn from(outcome: Result<bool, Refusal>) -> Said {
        Said(match outcome {
            Ok(true) => Ok(Verdict::Yes),
            Ok(false) => Ok(Verdict::No),
            Err(refusal) => Err(refusal.into()),
        })
    }
}
