// Acting on a netlist's lines, one after the other.
ghost use Rattle.board.specs.Views.{held_open};
ghost use Rattle.netlist.specs.Place.{Acts};

use crate::fault::Fault;
use crate::reader::Reader;
use board::OpenBoard;

impl<'a> Reader<'a> {
    // Reads the next line and applies its edit to a board.
    pub(crate) fn act(&mut self, board: &mut OpenBoard) -> Result<(), Fault>
        ensures { Acts self.old (held_open board.old) result self.new (held_open board.new) }
    {
        let line = self.line;
        let edit = self.next_line().ok_or(Fault::NoForm { line })?;
        board
            .apply(edit)
            .map_err(|cause| Fault::Declined { line, cause })
    }
}
