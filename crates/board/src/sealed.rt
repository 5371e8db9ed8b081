// The sealed board: it takes no edits, and can be measured.
ghost use Rattle.std.specs.Prelude.{◌≡◌};
ghost use Rattle.board.specs.Laws.{Lawful};
ghost use Rattle.board.specs.Views.{held_in, held_open, held_sealed};

use crate::open::OpenBoard;
use crate::rack::Rack;

#[derive(Drop)]
pub struct SealedBoard {
    pub(crate) rack: Rack,
}

impl SealedBoard {
    // What the board holds.
    pub fn rack(&self) -> &Rack
        ensures same { held_in result.now ≡ held_sealed self.now }
        ensures lawful { Lawful (held_in result.now) }
    {
        &self.rack
    }

    // A board that can be edited again.
    pub fn reopen(self) -> OpenBoard
        ensures { held_open result ≡ held_sealed self }
    {
        let SealedBoard { rack } = self;
        OpenBoard { rack }
    }
}
