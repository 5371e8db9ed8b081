// The fields of a netlist line, each read from the reader's place on. What takes one byte leaves one that does not fit.
ghost use Rattle.netlist.specs.Pieces as pieces;
ghost use Rattle.netlist.specs.Place.{Finds, Takes};

use crate::reader::Reader;

// The least number of three digits.
const THREE_DIGITS: u32 = 100;

impl<'a> Reader<'a> {
    // This byte.
    pub(crate) fn expect(&mut self, byte: u8) -> Option<()>
        ensures { Takes (pieces.byte byte) self.old result self.new }
    {
        self.rest = self.rest.strip_prefix(&[byte])?;
        Some(())
    }

    pub(crate) fn space(&mut self) -> Option<()>
        ensures { Takes (pieces.byte 32) self.old result self.new }
    {
        self.expect(b' ')
    }

    pub(crate) fn end_of_line(&mut self) -> Option<()>
        ensures { Takes (pieces.byte 10) self.old result self.new }
    {
        self.expect(b'\n')
    }

    // One of so many bytes from the first on, counted from 0.
    fn one_of(&mut self, start: u8, count: u8) -> Option<u32>
        ensures { Takes (pieces.one_of start count) self.old result self.new }
    {
        let (&byte, rest) = self.rest.split_first()?;
        let number = byte.checked_sub(start)?;
        if number >= count {
            return None;
        }
        self.rest = rest;
        Some(u32::from(number))
    }

    // A decimal digit.
    fn digit(&mut self) -> Option<u32>
        ensures { Takes pieces.digit self.old result self.new }
    {
        self.one_of(b'0', 10)
    }

    // A number of one to three digits without a leading zero.
    pub(crate) fn number(&mut self) -> Option<u32>
        ensures { Finds pieces.number self.old result self.new }
    {
        let mut value = self.digit()?;
        while let Some(digit) = self.digit() {
            // behind 0 or three digits stands no further one
            if value == 0 || value >= THREE_DIGITS {
                return None;
            }
            value = 10 * value + digit;
        }
        Some(value)
    }

    // A space and a number.
    pub(crate) fn field(&mut self) -> Option<u32>
        ensures { Finds pieces.field self.old result self.new }
    {
        self.space()?;
        self.number()
    }

    // A letter from A to H, A being 0.
    pub(crate) fn letter(&mut self) -> Option<u32>
        ensures { Takes pieces.letter self.old result self.new }
    {
        self.one_of(b'A', 8)
    }
}
