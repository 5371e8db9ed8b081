// The blocks that a board's clauses come in.
ghost use Rattle.std.specs.Prelude.{◌≡◌, ◌+◌, ◌*◌, ◌<◌, ◌≤◌, [], ◌∷◌, length};
ghost use Rattle.std.specs.Iterator.{IsFinite};
ghost use Rattle.std.specs.Iterator.Runs.{EachRunFrom, WholeRun};
ghost use Rattle.plans.specs.Clauses.{at_least_one, at_most_one, goes, goes_not};
ghost use Rattle.clauses.specs.Blocks.{block_at, block_count, clauses_in, conflicts_at};

use crate::block::{Block, Literals};
use crate::ranking::Ranking;

// The literals of an iterator.
fn literal_list<I: Iterator<Item = i16> + Drop>(literals: I) -> Literals
    requires can { I.can_next literals }
    requires ends { IsFinite (I.remaining literals) }
    requires room { EachRunFrom I.next_gives literals (λ run. run.len ≤ 32) }
    ensures { WholeRun I.next_gives literals (λ run. run.items ≡ result.items) }
{
    let mut list = Literals::new();
    for literal in literals {
        list.push(literal);
    }
    list
}

impl Ranking {
    fn fpics(&self) -> usize
        ensures { result ≡ self.now.sizes.fpics }
    {
        usize::from(self.sizes.fpics())
    }

    // The variable that stands for a net going by an FPIC.
    fn variable(&self, rank: u8, fpic: usize) -> i16
        requires { fpic < self.now.sizes.fpics }
        ensures { result ≡ goes self.now.sizes.fpics rank fpic }
    {
        (usize::from(rank) * self.fpics() + fpic + 1) as i16
    }

    // The literal that says that the net does not.
    fn negated(&self, rank: u8, fpic: usize) -> i16
        requires { fpic < self.now.sizes.fpics }
        ensures { result ≡ goes_not self.now.sizes.fpics rank fpic }
    {
        -self.variable(rank, fpic)
    }

    // A net goes by one of the FPICs.
    fn at_least_one(&self, rank: u8) -> Block
        ensures { clauses_in result ≡ at_least_one self.now.sizes.fpics rank ∷ [] }
    {
        let fpics = self.fpics();
        let literals = literal_list((0..fpics).map(|fpic| self.variable(rank, fpic)));
        Block {
            literals,
            size: fpics,
        }
    }

    // A net goes by no two FPICs.
    fn at_most_one(&self, rank: u8) -> Block
        ensures { clauses_in result ≡ at_most_one self.now.sizes.fpics rank }
    {
        let literals = literal_list((0..self.fpics()).map(|fpic| self.negated(rank, fpic)));
        Block { literals, size: 2 }
    }

    // Of the nets of a place's chip no more than the pins go by an FPIC.
    fn at_most_pins(&self, place: usize, fpic: usize) -> Block
        requires place { place < 32 }
        requires fpic { fpic < self.now.sizes.fpics }
        ensures { clauses_in result ≡ conflicts_at self.now place fpic }
    {
        let ranks = self.ranks[place].as_slice();
        let literals = literal_list(ranks.iter().map(|rank| self.negated(*rank, fpic)));
        let pins = usize::from(self.sizes.pins());
        Block {
            literals,
            size: pins + 1,
        }
    }

    pub(crate) fn block_count(&self) -> usize
        ensures { result ≡ block_count self.now }
    {
        2 * self.nets + usize::from(self.sizes.chips()) * self.fpics()
    }

    pub(crate) fn block(&self, index: usize) -> Block
        requires { index < block_count self.now }
        ensures { clauses_in result ≡ block_at self.now index }
    {
        if index < self.nets {
            return self.at_least_one(index as u8);
        }
        if index < 2 * self.nets {
            return self.at_most_one((index - self.nets) as u8);
        }
        let pair = index - 2 * self.nets;
        let fpics = self.fpics();
        self.at_most_pins(pair / fpics, pair % fpics)
    }
}
