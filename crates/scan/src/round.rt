// A round around a formula: it looks for the first clause that is all false or forces its last open literal.
ghost use Rattle.std.specs.Prelude.{◌≡◌, drop};
ghost use Rattle.sat.specs.Formula.{clauses_of};
ghost use Rattle.scan.specs.Rounds.{tells, start_of, first_telling, round, Finds};

use crate::clause::{Standing, read_clause};
use crate::values::Values;

// What a telling clause tells.
#[derive(Clone, Copy, PartialEq, Eq, Debug)]
pub enum Telling {
    // it is all false
    Conflict,
    // it forces this literal
    Forced(i16),
}

impl Standing {
    // None where the clause is satisfied or undecided.
    fn tells(self) -> Option<Telling>
        ensures { result ≡ tells self }
    {
        match self {
            Standing::Undecided | Standing::Satisfied => None,
            Standing::AllFalse => Some(Telling::Conflict),
            Standing::Forcing(literal) => Some(Telling::Forced(literal)),
        }
    }
}

// What the first telling clause tells, and where the next round should begin.
#[derive(Clone, Copy, PartialEq, Eq, Debug)]
pub struct Round {
    // None where every clause is satisfied or undecided
    pub found: Option<Telling>,
    pub next: usize,
}

// The proposed place, if a clause may begin there, else the formula's first.
fn start_of(formula: &[i16], proposed: usize) -> usize
    ensures { result ≡ start_of formula.now proposed }
{
    match formula.get(..proposed) {
        Some([.., 0]) => proposed,
        _ => 0,
    }
}

// The first telling clause from a place on.
fn first_telling(values: &Values, numbers: &[i16], from: usize) -> Round
    ensures { result ≡ first_telling values.now.slots from (clauses_of (drop from numbers.now)) }
{
    let mut place = from;
    while let Some(reading) = read_clause(values, numbers, place) {
        place = reading.next;
        let found = reading.standing.tells();
        if found.is_some() {
            return Round { found, next: place };
        }
    }
    Round {
        found: None,
        next: place,
    }
}

// Reads from the proposed place to the end and then from the first number to that place, up to the first telling clause.
pub fn look_around(values: &Values, formula: &[i16], proposed: usize) -> Round
    ensures exact { result ≡ round values.now.slots formula.now proposed }
    ensures finds { Finds values.now.slots (clauses_of formula.now) result.found }
{
    let start = start_of(formula, proposed);
    let ahead = first_telling(values, formula, start);
    if ahead.found.is_some() {
        ahead
    } else {
        first_telling(values, &formula[..start], 0)
    }
}
