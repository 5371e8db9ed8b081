// Drives the library through one task, from a blank board to a question about its formula, and prints each step.
#![tactic(auto)]

ghost use Rattle.std.specs.Prelude.{◌≡◌};

mod show;
mod step;

use board::{Edit, OpenBoard};
use clauses::formula;
use forcing::Forcing;
use netlist::read;
use sat::{Question, Solver};
use search::Search;
use show::{Count, Front, Outcome};
use std::io;
use step::apply;

// Six nets on three chips, with some corrections on the way.
const EDITS: [Edit; 16] = [
    Edit::Make {
        chips: 33,
        fpics: 2,
        pins: 2,
    },
    Edit::Make {
        chips: 3,
        fpics: 2,
        pins: 2,
    },
    Edit::Add {
        net: 1,
        ends: 0b011,
    },
    Edit::Add {
        net: 2,
        ends: 0b011,
    },
    Edit::Add {
        net: 3,
        ends: 0b110,
    },
    Edit::Add {
        net: 4,
        ends: 0b110,
    },
    Edit::Add {
        net: 5,
        ends: 0b101,
    },
    Edit::Add {
        net: 6,
        ends: 0b101,
    },
    Edit::Add {
        net: 7,
        ends: 0b110,
    },
    Edit::Add {
        net: 8,
        ends: 0b1001,
    },
    Edit::Lock { net: 6, letter: 2 },
    Edit::Lock { net: 6, letter: 1 },
    Edit::Drop { net: 6 },
    Edit::Add {
        net: 6,
        ends: 0b101,
    },
    Edit::Unlock { net: 6 },
    Edit::Add {
        net: 129,
        ends: 0b101,
    },
];

// The same six nets as a netlist, and one with a fault in its third line.
const NETLIST: &[u8] = b"B 3 2 2\nN 1 1 2\nN 2 1 2\nN 3 2 3\nN 4 2 3\nN 5 1 3\nN 6 1 3\n";

const DAMAGED: &[u8] = b"B 3 2 2\nN 1 1 2\nN 2 1  2\n";

// The question about the six nets' formula, of twelve variables.
fn question<'q>(formula: &'q [i16], assumed: &'q [i16]) -> Question<'q>
    ensures { result ≡ record { variables = 12; formula = formula.entry; assumed = assumed.entry } }
{
    Question {
        variables: 12,
        formula,
        assumed,
    }
}

fn main(rt: HostRuntime) -> io::Result<()> {
    let mut board = OpenBoard::blank();
    for edit in EDITS {
        println!(rt; "{}", apply(&mut board, edit))?;
    }
    println!(rt;
        "read a damaged netlist: {}",
        Outcome(read(&mut board, DAMAGED).map(|()| "done"))
    )?;
    println!(rt;
        "read a netlist of six nets: {}",
        Outcome(read(&mut board, NETLIST).map(|()| "done"))
    )?;
    let sealed = board.seal();
    let nets = sealed.rack().count();
    println!(rt; "seal: {nets} nets")?;
    println!(rt; "measure: {}", sealed.measure())?;
    let mut numbers = [0; 132];
    println!(rt;
        "formula: {}",
        Outcome(formula(&sealed, &mut numbers).map(Count))
    )?;
    println!(rt; "its first clauses:{}", Front(&numbers))?;
    let mut solver = Forcing::new(Search::new());
    let mut valuation = [0; 12];
    println!(rt;
        "question: {}",
        Outcome(solver.solve(question(&numbers, &[]), &mut valuation))
    )?;
    println!(rt;
        "with nets 1, 2 and 3 at FPIC A: {}",
        Outcome(solver.solve(question(&numbers, &[1, 3, 5]), &mut valuation))
    )?;
    let mut board = sealed.reopen();
    println!(rt; "reopen")?;
    println!(rt; "{}", apply(&mut board, Edit::Lock { net: 1, letter: 1 }))
}
