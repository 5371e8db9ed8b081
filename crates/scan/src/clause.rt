// One clause read under a partial valuation.
ghost use Rattle.std.specs.Prelude.{◌≡◌, drop};
ghost use Rattle.sat.specs.Formula.{clauses_of};
ghost use Rattle.scan.specs.Clauses.{Told, judged, reading, with_open};

use crate::value::Value;
use crate::values::Values;
use sat::split_clause;

#[derive(Clone, Copy, PartialEq, Eq, Debug)]
pub enum Standing {
    // several of its literals are open, and none is true
    Undecided,
    // one of its literals is true
    Satisfied,
    // every literal is false
    AllFalse,
    // this literal is open, and every other one is false
    Forcing(i16),
}

impl Standing {
    // What a clause is, read no further than its first true literal.
    fn of(clause: &[i16], values: &Values) -> Standing
        ensures { result ≡ judged values.now.slots clause.now }
    {
        let mut standing = Standing::AllFalse;
        for &literal in clause {
            match values.read(literal) {
                Value::False => {}
                Value::Open => standing = standing.with_open(literal),
                Value::True => return Standing::Satisfied,
            }
        }
        standing
    }

    // A clause with one open literal more.
    fn with_open(self, literal: i16) -> Standing
        ensures { result ≡ with_open self literal }
    {
        match self {
            Standing::AllFalse => Standing::Forcing(literal),
            Standing::Forcing(first) if first == literal => self,
            Standing::Forcing(_) | Standing::Undecided => Standing::Undecided,
            Standing::Satisfied => Standing::Satisfied,
        }
    }
}

// What a clause is, and where the numbers behind its 0 begin.
#[derive(Clone, Copy, PartialEq, Eq, Debug)]
pub struct Reading {
    pub standing: Standing,
    pub next: usize,
}

// Reads the clause that begins at a place. Numbers without a 0 are no clause.
pub fn read_clause(values: &Values, numbers: &[i16], place: usize) -> Option<Reading>
    ensures exact { result ≡ reading values.now.slots place (clauses_of (drop place numbers.now)) }
    ensures means { Told values.now.slots (clauses_of (drop place numbers.now)) result }
{
    let (clause, _) = split_clause(numbers.get(place..)?)?;
    Some(Reading {
        standing: Standing::of(clause, values),
        next: place + clause.len() + 1,
    })
}
