// Asks the solvers the same questions and prints one line for each, with what each solver says.
#![tactic(auto)]

ghost use Rattle.std.specs.Prelude.{min, length};
ghost use Rattle.trials.specs.Answers.{RightOf};

mod ask;
mod callers;
mod evaluate;
mod said;
mod trial;

use ask::{Failure, ask};
use callers::{agree, is_satisfiable};
use forcing::Forcing;
use odometer::Odometer;
use said::Said;
use sat::{Solver, Verdict};
use search::Search;
use std::io;
use trial::{TRIALS, Trial};

// Asks with as many bytes of the buffer as the trial has room for.
fn put<S: Solver>(trial: &Trial, solver: &mut S, buffer: &mut [u8]) -> Result<Verdict, Failure>
    ensures { RightOf (S.Solver.largest solver.old) trial.now.question (min trial.now.room (length buffer.old)) result }
{
    let room = trial.room.min(buffer.len());
    ask(solver, trial.question, &mut buffer[..room])
}

fn main(rt: HostRuntime) -> io::Result<()> {
    let mut search = Search::new();
    let mut odometer = Odometer::new();
    let mut layer = Forcing::new(Search::new());
    let mut layers = Forcing::new(Forcing::new(Odometer::new()));
    let mut buffer = [7; 1100];
    for trial in &TRIALS {
        let about = trial.about;
        let question = trial.question;
        let first = Said(put(trial, &mut search, &mut buffer));
        let second = Said(put(trial, &mut odometer, &mut buffer));
        let third = Said(put(trial, &mut layer, &mut buffer));
        let fourth = Said(put(trial, &mut layers, &mut buffer));
        let alike = agree(&mut layer, &mut layers, question, &mut buffer);
        let unassumed = Said::from(is_satisfiable(
            &mut odometer,
            question.variables,
            question.formula,
            &mut buffer,
        ));
        println!(rt;
            "{about}: {first} {second} {third} {fourth} (layers alike: {alike}; with nothing assumed: {unassumed})"
        )?;
    }
    let first = search.tally();
    let second = odometer.tally();
    let third = layer.tally();
    let third_below = layer.below().tally();
    let fourth = layers.tally();
    let fourth_below = layers.below().tally();
    println!(rt;
        "answered: {first}, {second}, {third} ({third_below} below), {fourth} ({fourth_below} below)"
    )
}
