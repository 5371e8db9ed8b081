// Netlists: reading one into an open board, and the line that a refusal prints.
#![tactic(auto)]

ghost use Rattle.board.specs.Views.{held_open};
ghost use Rattle.netlist.specs.Reads.{Reads, Alone, EndsAreChips};

use board::OpenBoard;
use reader::Reader;

mod chips;
pub mod fault;
mod fields;
mod forms;
mod lines;
pub mod notice;
mod reader;

pub use fault::Fault;
pub use notice::Notice;

// The bytes of the longest netlist.
const LONGEST: usize = 16_384;

// Reads a netlist into a board: its lines act as make, add and lock, or else the board stays as it was.
// A first line makes the board anew, so the lines act on a blank board, which replaces the caller's at the end.
pub fn read(board: &mut OpenBoard, text: &[u8]) -> Result<(), Fault>
    ensures reads { Reads (held_open board.old) text.now result (held_open board.new) }
    ensures alone { Alone (held_open board.old) text.now result (held_open board.new) }
    ensures ends { EndsAreChips }
{
    if text.len() > LONGEST {
        return Err(Fault::TooLong);
    }
    let mut reader = Reader::new(text);
    let mut fresh = OpenBoard::blank();
    // a text has one line at least; the one call is compiled in place
    let mut is_left = true;
    while is_left {
        reader.act(&mut fresh)?;
        is_left = !reader.rest.is_empty();
    }
    *board = fresh;
    Ok(())
}

#[cfg(test)]
mod tests;
