// The buffers that a caller lends, and the refusal of one that is too short.
ghost use Rattle.std.specs.Prelude.{◌≡◌, ◌<◌, ◌≤◌, ◌++◌, Some, codes, decimal, MatchResult};
ghost use Rattle.clauses.specs.Buffers.{number};

use std::error::Error;
use std::fmt;

#[derive(Clone, Copy, PartialEq, Eq, Debug)]
pub enum Buffer {
    // the numbers of a formula
    Formula,
    // the bytes that a router works in
    Working,
    // the rows of a plan
    Plan,
    // the bytes of a printed text
    Text,
}

// A buffer is short: which one, and the length that is needed.
#[derive(Clone, Copy, PartialEq, Eq, Debug)]
pub struct ShortBuffer {
    pub buffer: Buffer,
    pub needed: usize,
}

impl Buffer {
    // Refuses the buffer if its room is less than what is needed.
    pub(crate) fn check(self, room: usize, needed: usize) -> Result<(), ShortBuffer>
        ensures { MatchResult result (λ _. needed ≤ room) (λ short. (room < needed) × (short ≡ record { buffer = self; needed = needed })) }
    {
        if room < needed {
            return Err(ShortBuffer {
                buffer: self,
                needed,
            });
        }
        Ok(())
    }
}

impl ShortBuffer {
    pub fn number(&self) -> u8
        ensures { result ≡ number self.now }
    {
        11
    }
}

// The line of the refusal, without its line feed: its number alone.
impl fmt::Display for ShortBuffer {
    ghost output = { λ short. Some (codes "refused " ++ decimal (number short)) };

    fn fmt<W: fmt::Write>(&self, f: &mut fmt::Formatter<W>) -> fmt::Result {
        write!(f, "refused {}", self.number())
    }
}

impl Error for ShortBuffer {}
