// What a board holds: the sizes of its rack and its nets, with what holds of every board.
// Its views serve open and sealed boards alike; it is altered only through an open board.
ghost use Rattle.std.specs.Prelude.{◌≡◌, ℕ, ◌*◌, ◌≤◌, true, All};
ghost use Rattle.board.specs.Rows.{good_row, are_ends, row_of, load, lowest_full_in};
ghost use Rattle.board.specs.Finds.{held};

use crate::chips::Chips;
use crate::net::Net;
use crate::number::NetNumber;
use crate::refusal::Refusal;
use crate::sizes::Sizes;
use crate::table::Table;

#[derive(Drop)]
pub struct Rack {
    pub(crate) sizes: Sizes,
    pub(crate) table: Table,
    ghost good: { All (λ row. good_row sizes.chips sizes.fpics row ≡ true) table.rows },
    ghost loads: { (c : ℕ) → load c table.rows ≤ sizes.fpics * sizes.pins },
}

impl Rack {
    // Two or more ends, and none above the chips.
    pub(crate) fn are_ends(&self, ends: u32) -> bool
        ensures { result ≡ are_ends self.now.sizes.chips ends }
    {
        ends.count_ones() >= 2 && u64::from(ends) >> self.sizes.chips() == 0
    }

    // The lowest end whose chip has all its nets already.
    pub(crate) fn lowest_full(&self, ends: u32) -> Option<u32>
        ensures { result ≡ lowest_full_in (self.now.sizes.fpics * self.now.sizes.pins) self.now.table.rows ends }
    {
        let limit = self.sizes.limit();
        Chips::of(ends).find(|chip| self.table.load(*chip) >= limit)
    }

    // The held net of a number.
    pub(crate) fn find(&self, number: NetNumber) -> Result<Net, Refusal>
        ensures { result ≡ held (row_of self.now.table.rows number) }
    {
        self.table.net(number).ok_or(Refusal::NotHeld)
    }
}
