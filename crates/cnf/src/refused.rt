// Why the program answers no text.
ghost use Rattle.std.specs.Prelude.{◌≡◌, Some};
ghost use Rattle.cnf.specs.Refusals.{notice_of};
ghost use Rattle.cnf.specs.declared.refused.Refused.TheVariants.{Netlist, Short};
ghost use Rattle.netlist.specs.Notices.{notice_bytes};

use clauses::ShortBuffer;
use netlist::{Fault, Notice};
use std::error::Error;
use std::fmt;

#[derive(Clone, Copy, PartialEq, Eq, Debug)]
pub enum Refused {
    Netlist(Fault),
    Short(ShortBuffer),
}

impl From<Fault> for Refused {
    ghost from_gives = { λ fault refused. refused ≡ Netlist fault };

    fn from(fault: Fault) -> Refused {
        Refused::Netlist(fault)
    }
}

impl From<ShortBuffer> for Refused {
    ghost from_gives = { λ short refused. refused ≡ Short short };

    fn from(short: ShortBuffer) -> Refused {
        Refused::Short(short)
    }
}

impl From<Refused> for Notice {
    ghost from_gives = { λ refused notice. notice ≡ notice_of refused };

    fn from(refused: Refused) -> Notice {
        match refused {
            Refused::Netlist(fault) => Notice::from(fault),
            Refused::Short(short) => Notice::Plain {
                number: short.number(),
            },
        }
    }
}

// A refusal reads as its notice.
impl fmt::Display for Refused {
    ghost output = { λ refused. Some (notice_bytes (notice_of refused)) };

    fn fmt<W: fmt::Write>(&self, f: &mut fmt::Formatter<W>) -> fmt::Result {
        Notice::from(*self).fmt(f)
    }
}

impl Error for Refused {}
