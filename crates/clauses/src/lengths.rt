// How long the first line and the lines of the clauses are, found without the formula.
ghost use Rattle.std.specs.Prelude.{◌≡◌, ◌*◌, ◌^◌, ◌<◌, ◌≤◌, length};
ghost use Rattle.std.specs.List.{flat_map};
ghost use Rattle.subsets.specs.Choose.{subset_count};
ghost use Rattle.clauses.specs.Blocks.{all_blocks, block_at, block_count, clauses_in};
ghost use Rattle.clauses.specs.Text.{head_of, line_of, spelled};

use crate::block::Block;
use crate::decimals::{decimal_length, literal_length};
use crate::ranking::Ranking;
use board::Measure;
use subsets::subset_count;

// How many sets of so many elements there are.
fn set_count(count: usize, size: usize) -> usize
    requires known { count ≤ 32 }
    requires whole { 5 < size → size ≡ count }
    ensures value { result ≡ subset_count count size }
    ensures bound { result ≤ 201376 }
{
    if size == count {
        return 1;
    }
    subset_count(count, size).unwrap() as usize
}

// The bytes of the literals, each with its space.
fn literals_length(literals: &[i16]) -> usize
    requires { length literals.now ≤ 32 }
    ensures value { result ≡ length (flat_map spelled literals.now) }
    ensures bound { result ≤ 224 }
{
    literals
        .iter()
        .map(|literal| literal_length(*literal))
        .sum()
}

impl Block {
    // The bytes of the lines of the block's clauses. A literal stands in as many sets as the others have sets of one literal less.
    fn lines_length(&self) -> usize
        ensures value { result ≡ length (flat_map line_of (clauses_in self.now)) }
        ensures bound { result < 2 ^ 27 }
    {
        let count = self.literals.len();
        if count < self.size {
            return 0;
        }
        let sets = set_count(count, self.size);
        let each = set_count(count - 1, self.size - 1);
        each * literals_length(self.literals.as_slice()) + 2 * sets
    }
}

impl Ranking {
    // The bytes of the lines of a block's clauses.
    fn length_at(&self, index: usize) -> usize
        requires { index < block_count self.now }
        ensures value { result ≡ length (flat_map line_of (block_at self.now index)) }
        ensures bound { result < 2 ^ 27 }
    {
        self.block(index).lines_length()
    }

    // The bytes of the lines of all clauses.
    pub(crate) fn lines_length(&self) -> usize
        ensures value { result ≡ length (flat_map line_of (all_blocks self.now)) }
        ensures bound { result < 2 ^ 37 }
    {
        (0..self.block_count())
            .map(|index| self.length_at(index))
            .sum()
    }
}

// The bytes of the first line.
pub(crate) fn head_length(measure: Measure) -> usize
    ensures value { result ≡ length (head_of measure.variables measure.clauses) }
    ensures bound { result ≤ 28 }
{
    6 + decimal_length(measure.variables) + 1 + decimal_length(measure.clauses) + 1
}
