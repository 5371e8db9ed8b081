// A net number, from 1 to 128.
ghost use Rattle.std.specs.Prelude.{◌≡◌, ℕ, ◌+◌, ◌<◌, true, if◌then◌else◌, Ok, Err};
ghost use Rattle.board.specs.Finds.{is_number};
ghost use Rattle.board.specs.declared.refusal.Refusal.TheVariants.{NetOutsideLimits};

use crate::refusal::Refusal;
use std::marker::Model;

#[derive(Clone, Copy, PartialEq, Eq, Debug)]
pub(crate) struct NetNumber(u32);

impl Model for NetNumber {
    ghost Value = { ℕ };

    ghost view = { λ net. net.0 };

    ghost invariant = { λ net. is_number net.0 ≡ true };

    ghost inverse = { λ number. record { 0 = number } };
}

impl TryFrom<u32> for NetNumber {
    type Error = Refusal;

    ghost try_from_gives = { λ number r. r ≡ (if is_number number then Ok number else Err NetOutsideLimits) };

    fn try_from(number: u32) -> Result<NetNumber, Refusal> {
        if (1..=128).contains(&number) {
            Ok(NetNumber(number))
        } else {
            Err(Refusal::NetOutsideLimits)
        }
    }
}

impl NetNumber {
    // Where the net's row stands.
    pub(crate) fn place(self) -> usize
        ensures value { result + 1 ≡ self }
        ensures bound { result < 128 }
    {
        self.0 as usize - 1
    }
}
