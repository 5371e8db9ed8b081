// The chips of a set by rising number: trailing zeros lead to the lowest, and `rest & (rest - 1)` leaves the others.
ghost use Rattle.std.specs.Prelude.{◌≡◌, ℕ, List};
ghost use Rattle.std.specs.Iterator.{YieldsFirst, item_count};
ghost use Rattle.board.specs.Rows.{chips_of};

use std::marker::Model;

#[derive(Drop)]
pub struct Chips {
    // a set of chips, chip c at bit c - 1
    rest: u32,
}

// A contract sees the list of the chips that are left.
impl Model for Chips {
    ghost Value = { List ℕ };

    ghost view = { λ chips. chips_of chips.rest };
}

impl Chips {
    // The chips of a set, chip c at bit c - 1.
    pub fn of(ends: u32) -> Chips
        ensures { result ≡ chips_of ends }
    {
        Chips { rest: ends }
    }
}

impl Iterator for Chips {
    type Item = u32;

    ghost next_gives = { YieldsFirst (λ chips. chips) };

    ghost remaining = { item_count (λ chips. chips) };

    fn next(&mut self) -> Option<u32> {
        let rest = self.rest;
        if rest == 0 {
            return None;
        }
        self.rest = rest & (rest - 1);
        Some(rest.trailing_zeros() + 1)
    }
}
