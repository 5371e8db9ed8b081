// One edit of a board with what came of it, and how it is shown.
ghost use Rattle.std.specs.Prelude.{◌≡◌};
ghost use Rattle.board.specs.Held.{after, answer, judged};
ghost use Rattle.board.specs.Views.{held_open};

use board::{Chips, Edit, OpenBoard, Refusal};
use std::fmt;

#[derive(Drop)]
pub struct Step {
    edit: Edit,
    answer: Result<(), Refusal>,
}

// Edits the board, and keeps what came of it.
pub fn apply(board: &mut OpenBoard, edit: Edit) -> Step
    ensures records { result ≡ record { edit = edit; answer = answer (judged (held_open board.old) edit) } }
    ensures leaves { held_open board.new ≡ after (held_open board.old) edit }
{
    let answer = board.apply(edit);
    Step { edit, answer }
}

// A set of chips, each with a space before it.
#[derive(Drop)]
struct Ends(u32);

impl fmt::Display for Ends {
    fn fmt<W: fmt::Write>(&self, f: &mut fmt::Formatter<W>) -> fmt::Result {
        for chip in Chips::of(self.0) {
            write!(f, " {chip}")?;
        }
        Ok(())
    }
}

// An FPIC by its letter, or by its number where it has none.
#[derive(Drop)]
struct Fpic(u32);

impl fmt::Display for Fpic {
    fn fmt<W: fmt::Write>(&self, f: &mut fmt::Formatter<W>) -> fmt::Result {
        let letter = self.0;
        if letter >= 26 {
            return write!(f, "{letter}");
        }
        let letter = char::from(b'A' + letter as u8);
        write!(f, "{letter}")
    }
}

#[derive(Drop)]
struct Asked(Edit);

impl fmt::Display for Asked {
    fn fmt<W: fmt::Write>(&self, f: &mut fmt::Formatter<W>) -> fmt::Result {
        match self.0 {
            Edit::Make { chips, fpics, pins } => write!(
                f,
                "make {chips} chips, {fpics} FPICs, {pins} pins"
            ),
            Edit::Add { net, ends } => write!(f, "add net {net} on chips{}", Ends(ends)),
            Edit::Drop { net } => write!(f, "drop net {net}"),
            Edit::Lock { net, letter } => write!(f, "lock net {net} to FPIC {}", Fpic(letter)),
            Edit::Unlock { net } => write!(f, "unlock net {net}"),
        }
    }
}

impl fmt::Display for Step {
    fn fmt<W: fmt::Write>(&self, f: &mut fmt::Formatter<W>) -> fmt::Result {
        write!(f, "{}: ", Asked(self.edit))?;
        match self.answer {
            Ok(()) => write!(f, "done"),
            Err(refusal @ Refusal::ChipFull { chip }) => write!(f, "{refusal}, chip {chip}"),
            Err(refusal) => write!(f, "{refusal}"),
        }
    }
}
