// The chips of a net line, as a set: chip c is bit c - 1.
ghost use Rattle.std.specs.Prelude.{◌≡◌};
ghost use Rattle.netlist.specs.Lines.{ends_of, with_chip};
ghost use Rattle.netlist.specs.Pieces as pieces;
ghost use Rattle.netlist.specs.Place.{FindsAs};

use crate::reader::Reader;

// The set with one more chip, which is from 1 to 32 and not in it yet.
fn with_chip(ends: u32, chip: u32) -> Option<u32>
    ensures { result ≡ with_chip ends chip }
{
    if !(1..=32).contains(&chip) {
        return None;
    }
    let bit = 1 << (chip - 1);
    (ends & bit == 0).then_some(ends | bit)
}

impl<'a> Reader<'a> {
    // One chip or more, all different, and the line feed.
    pub(crate) fn chips(&mut self) -> Option<u32>
        ensures { FindsAs ends_of pieces.chips self.old result self.new }
    {
        let mut ends = 0;
        while self.end_of_line().is_none() {
            ends = with_chip(ends, self.field()?)?;
        }
        (ends != 0).then_some(ends)
    }
}
