// An edit of an open board, with its arguments as the caller wrote them, and lists of edits.
ghost use Rattle.std.specs.Prelude.{◌≡◌};
ghost use Rattle.board.specs.Held.{judged, after, after_all, answer, refused_in};
ghost use Rattle.board.specs.Views.{held_open};

use crate::open::OpenBoard;
use crate::refusal::Refusal;

#[derive(Clone, Copy, PartialEq, Eq, Debug)]
pub enum Edit {
    // a board of these sizes without nets
    Make { chips: u32, fpics: u32, pins: u32 },
    // a net with its ends, chip c at bit c - 1, and no lock
    Add { net: u32, ends: u32 },
    // strikes a net and its lock
    Drop { net: u32 },
    // ties a net to an FPIC, A being 0, in place of any other
    Lock { net: u32, letter: u32 },
    // removes a net's lock
    Unlock { net: u32 },
}

impl OpenBoard {
    pub fn apply(&mut self, edit: Edit) -> Result<(), Refusal>
        ensures answers { result ≡ answer (judged (held_open self.old) edit) }
        ensures leaves { held_open self.new ≡ after (held_open self.old) edit }
    {
        match edit {
            Edit::Make { chips, fpics, pins } => self.make(chips, fpics, pins),
            Edit::Add { net, ends } => self.add(net, ends),
            Edit::Drop { net } => self.remove(net),
            Edit::Lock { net, letter } => self.lock(net, letter),
            Edit::Unlock { net } => self.unlock(net),
        }
    }

    // Applies edits in order, declined ones without effect, and counts the declined.
    pub fn apply_all(&mut self, edits: &[Edit]) -> usize
        ensures counts { result ≡ refused_in (held_open self.old) edits.now }
        ensures leaves { held_open self.new ≡ after_all (held_open self.old) edits.now }
    {
        let mut refused = 0;
        for edit in edits {
            if self.apply(*edit).is_err() {
                refused += 1;
            }
        }
        refused
    }
}
