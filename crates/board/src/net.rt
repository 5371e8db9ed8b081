// A net: the chips that it ends on, and perhaps the FPIC that it is locked to.
ghost use Rattle.std.specs.Prelude.{◌≡◌};
ghost use Rattle.board.specs.Rows.{chips_of, has_end};

use crate::chips::Chips;

#[derive(Clone, Copy, PartialEq, Eq, Debug)]
pub struct Net {
    // a set of chips, chip c at bit c - 1
    pub(crate) ends: u32,
    // counted from 0, which is A
    pub(crate) lock: Option<u8>,
}

impl Net {
    pub fn ends(&self) -> u32
        ensures { result ≡ self.now.ends }
    {
        self.ends
    }

    pub fn lock(&self) -> Option<u8>
        ensures { result ≡ self.now.lock }
    {
        self.lock
    }

    // The chips that the net ends on, by rising number.
    pub fn chips(&self) -> Chips
        ensures { result ≡ chips_of self.now.ends }
    {
        Chips::of(self.ends)
    }

    // Whether the net ends on a chip.
    pub fn ends_on(&self, chip: u32) -> bool
        ensures { result ≡ has_end self.now.ends chip }
    {
        let ends = self.ends;
        if !(1..=32).contains(&chip) {
            return false;
        }
        (ends >> (chip - 1)) % 2 == 1
    }
}
