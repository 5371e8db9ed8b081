// The nets of a board by rank, and those of each chip.
ghost use Rattle.std.specs.Prelude.{◌≡◌, ℕ, ◌+◌, ◌<◌, ◌≤◌, true, [], ◌∷◌, ◌++◌, length, if◌then◌else◌, nat_eq};

use arrayvec::ArrayVec;
use board::{Net, Rack, SealedBoard, Sizes};
use std::array;

#[derive(Drop)]
pub struct Ranking {
    pub(crate) sizes: Sizes,
    pub(crate) nets: usize,
    // the ranks of each chip's nets, rising; those of chip c at c - 1
    pub(crate) ranks: [ArrayVec<u8, 32>; 32],
    ghost held: { nets ≤ 128 },
}

impl Ranking {
    ghost use Rattle.board.specs.Laws.{Lawful};
    ghost use Rattle.board.specs.Rows.{has_end};
    ghost use Rattle.board.specs.Views.{held_in, held_sealed};
    ghost use Rattle.clauses.specs.Ranks.{ranks_at, Ranks, Sized};

    // No nets yet.
    fn empty(rack: &Rack) -> Ranking
        ensures sized { Sized (held_in rack.now) result }
        ensures empty { Ranks [] result }
    {
        Ranking {
            sizes: rack.sizes(),
            nets: 0,
            ranks: array::from_fn(|_| ArrayVec::new()),
        }
    }

    // One more net for the chip of a place.
    fn push(&mut self, place: usize, rank: u8)
        requires place { place < 32 }
        requires room { length (ranks_at self.old place) < 32 }
        ensures sizes { self.new.sizes ≡ self.old.sizes }
        ensures nets { self.new.nets ≡ self.old.nets }
        ensures lists { (other : ℕ) → ranks_at self.new other ≡ ranks_at self.old other ++ (if nat_eq other place then rank ∷ [] else []) }
    {
        self.ranks[place].push(rank);
    }

    // The next net, with its chips.
    fn enter(&mut self, net: Net)
        requires held { self.old.nets < 128 }
        requires room { (place : ℕ) → has_end net.ends (place + 1) ≡ true → length (ranks_at self.old place) < 32 }
        ensures sizes { self.new.sizes ≡ self.old.sizes }
        ensures nets { self.new.nets ≡ self.old.nets + 1 }
        ensures lists { (place : ℕ) → ranks_at self.new place ≡ ranks_at self.old place ++ (if has_end net.ends (place + 1) then self.old.nets ∷ [] else []) }
    {
        let rank = self.nets as u8;
        for chip in net.chips() {
            self.push(chip as usize - 1, rank);
        }
        self.nets += 1;
    }

    // The nets of a board, by rising number.
    pub(crate) fn of(board: &SealedBoard) -> Ranking
        ensures lawful { Lawful (held_sealed board.now) }
        ensures sized { Sized (held_sealed board.now) result }
        ensures ranks { Ranks (held_sealed board.now).rows result }
    {
        let rack = board.rack();
        let mut ranking = Ranking::empty(rack);
        for number in 1..=128 {
            if let Some(net) = rack.net(number) {
                ranking.enter(net);
            }
        }
        ranking
    }
}
