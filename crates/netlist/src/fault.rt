// Why a netlist is declined.
ghost use Rattle.std.specs.Prelude.{◌≡◌};
ghost use Rattle.netlist.specs.Faults.{number};

use crate::notice::Notice;
use board::Refusal;
use std::error::Error;
use std::fmt;

#[derive(Clone, Copy, PartialEq, Eq, Debug)]
pub enum Fault {
    // more than 16,384 bytes
    TooLong,
    // the line, counted from 1, has none of the forms
    NoForm { line: u32 },
    // the board declined the line's edit
    Declined { line: u32, cause: Refusal },
}

impl Fault {
    pub fn number(&self) -> u8
        ensures { result ≡ number self.now }
    {
        match self {
            Fault::TooLong => 12,
            Fault::NoForm { .. } => 13,
            Fault::Declined { .. } => 14,
        }
    }
}

// A fault reads as its notice.
impl fmt::Display for Fault {
    ghost use Rattle.std.specs.Prelude.{Some};
    ghost use Rattle.netlist.specs.Notices.{notice_of, notice_bytes};

    ghost output = { λ fault. Some (notice_bytes (notice_of fault)) };

    fn fmt<W: fmt::Write>(&self, f: &mut fmt::Formatter<W>) -> fmt::Result {
        Notice::from(*self).fmt(f)
    }
}

impl Error for Fault {}
