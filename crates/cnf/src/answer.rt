// What the program answers to a netlist.
ghost use Rattle.cnf.specs.Answers.{Answered};

use crate::refused::Refused;
use board::OpenBoard;
use clauses::text;
use netlist::read;

// The text of the netlist's formula, at the front of the second buffer, and its length; or the first refusal.
pub fn answer(netlist: &[u8], formula: &mut [i16], out: &mut [u8]) -> Result<usize, Refused>
    ensures { Answered netlist.now formula.old formula.new out.old out.new result }
{
    let mut board = OpenBoard::blank();
    read(&mut board, netlist)?;
    Ok(text(&board.seal(), formula, out)?)
}
