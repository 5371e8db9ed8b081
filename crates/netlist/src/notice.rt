// The line that a refusal prints: its number, the netlist line of a fault, and the board's number as its cause.
ghost use Rattle.std.specs.Prelude.{◌≡◌, [], ◌∷◌, ◌++◌, IfOk, Some, string_bytes};
ghost use Rattle.netlist.specs.Notices.{notice_of, notice_bytes};

use crate::fault::Fault;
use std::alloc::{AllocError, Global};
use std::fmt;

#[derive(Clone, Copy, PartialEq, Eq, Debug)]
pub enum Notice {
    // a refusal that names no line
    Plain { number: u8 },
    AtLine { number: u8, line: u32 },
    WithCause { number: u8, line: u32, cause: u8 },
}

impl From<Fault> for Notice {
    ghost from_gives = { λ fault notice. notice ≡ notice_of fault };

    fn from(fault: Fault) -> Notice {
        let number = fault.number();
        match fault {
            Fault::TooLong => Notice::Plain { number },
            Fault::NoForm { line } => Notice::AtLine { number, line },
            Fault::Declined { line, cause } => {
                let cause = cause.number();
                Notice::WithCause {
                    number,
                    line,
                    cause,
                }
            }
        }
    }
}

impl Notice {
    // The notice as a line, with its line feed.
    pub fn print(&self, heap: Global) -> Result<String, AllocError>
        ensures { IfOk result (λ s. string_bytes s ≡ notice_bytes self.now ++ (10 ∷ [])) }
    {
        format!(in heap; "{self}\n")
    }
}

impl fmt::Display for Notice {
    ghost output = { λ notice. Some (notice_bytes notice) };

    fn fmt<W: fmt::Write>(&self, f: &mut fmt::Formatter<W>) -> fmt::Result {
        match self {
            Notice::Plain { number } => write!(f, "refused {number}"),
            Notice::AtLine { number, line } => write!(f, "refused {number} line {line}"),
            Notice::WithCause {
                number,
                line,
                cause,
            } => { write!(f, "refused {number} line {line} cause {cause}") }
        }
    }
}
