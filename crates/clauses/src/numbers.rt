// The formula of a sealed board as signed numbers.
ghost use Rattle.std.specs.Prelude.{◌≡◌, ◌+◌, ◌≤◌, length};
ghost use Rattle.sat.specs.Formula.{encode};
ghost use Rattle.board.specs.Views.{held_sealed};
ghost use Rattle.plans.specs.Laws.{BoardLaws};
ghost use Rattle.clauses.specs.Blocks.{all_blocks, clauses_in};
ghost use Rattle.clauses.specs.Filling.{Writes};
ghost use Rattle.clauses.specs.Formulas.{Formulated};

use crate::block::{Block, Literals};
use crate::buffer::{Buffer, ShortBuffer};
use crate::ranking::Ranking;
use crate::writing::write_sets;
use board::{Measure, SealedBoard};

impl Block {
    // Writes the clauses of the block.
    fn write(&self, out: &mut [i16]) -> usize
        requires { length (encode (clauses_in self.now)) ≤ length out.old }
        ensures { Writes (encode (clauses_in self.now)) out.old out.new result }
    {
        let mut front = Literals::new();
        write_sets(&mut front, self.size, self.literals.as_slice(), out)
    }
}

impl Ranking {
    // Writes the clauses of all blocks.
    pub(crate) fn write(&self, out: &mut [i16]) -> usize
        requires { length (encode (all_blocks self.now)) ≤ length out.old }
        ensures { Writes (encode (all_blocks self.now)) out.old out.new result }
    {
        let mut count = 0;
        for index in 0..self.block_count() {
            count += self.block(index).write(&mut out[count..]);
        }
        count
    }
}

// How many numbers a formula has: one for each literal, and a 0 for each clause.
pub(crate) fn number_count(measure: Measure) -> usize
    ensures { result ≡ measure.literals + measure.clauses }
{
    measure.literals as usize + measure.clauses as usize
}

// Writes the formula of the board to the front of the buffer, and answers its length.
pub fn formula(board: &SealedBoard, out: &mut [i16]) -> Result<usize, ShortBuffer>
    ensures writes { Formulated (held_sealed board.now) out.old out.new result }
    ensures laws { BoardLaws (held_sealed board.now) }
{
    let needed = number_count(board.measure());
    Buffer::Formula.check(out.len(), needed)?;
    let ranking = Ranking::of(board);
    Ok(ranking.write(out))
}
