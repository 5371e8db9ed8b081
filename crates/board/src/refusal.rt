// Why an edit is declined. Each refusal has a number, and of several the smallest is given.
ghost use Rattle.std.specs.Prelude.{◌≡◌, Some};
ghost use Rattle.board.specs.Refusals.{number, refusal_bytes};

use std::error::Error;
use std::fmt;

#[derive(Clone, Copy, PartialEq, Eq, Debug)]
pub enum Refusal {
    // chips, FPICs or pins outside their limits
    SizesOutsideLimits,
    // a net number outside 1 to 128
    NetOutsideLimits,
    // the net is held already
    AlreadyHeld,
    // the net is not held
    NotHeld,
    // fewer than two ends, or one above the chips
    UnfitEnds,
    // an end that has all its nets already, the lowest such chip
    ChipFull { chip: u8 },
    // a letter that is not among the FPICs
    NoSuchFpic,
    // there is no lock to remove
    NotLocked,
}

impl Refusal {
    pub fn number(&self) -> u8
        ensures { result ≡ number self.now }
    {
        match self {
            Refusal::SizesOutsideLimits => 1,
            Refusal::NetOutsideLimits => 2,
            Refusal::AlreadyHeld => 3,
            Refusal::NotHeld => 4,
            Refusal::UnfitEnds => 5,
            Refusal::ChipFull { chip: _ } => 6,
            Refusal::NoSuchFpic => 7,
            Refusal::NotLocked => 8,
        }
    }
}

impl fmt::Display for Refusal {
    ghost output = { λ refusal. Some (refusal_bytes refusal) };

    fn fmt<W: fmt::Write>(&self, f: &mut fmt::Formatter<W>) -> fmt::Result {
        write!(f, "refused {}", self.number())
    }
}

impl Error for Refusal {}
