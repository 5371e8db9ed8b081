// The size of a sealed board's formula.
ghost use Rattle.std.specs.Prelude.{◌≡◌, ◌+◌, ◌*◌, ◌≤◌, Some};
ghost use Rattle.subsets.specs.Choose.{subset_count};
ghost use Rattle.board.specs.Measure.{conflicts, measured, measure_bytes};
ghost use Rattle.board.specs.Rows.{load};
ghost use Rattle.board.specs.Views.{held_in, held_sealed};

use crate::rack::Rack;
use crate::sealed::SealedBoard;
use std::fmt;
use subsets::subset_count;

#[derive(Clone, Copy, PartialEq, Eq, Debug)]
pub struct Measure {
    pub variables: u32,
    pub clauses: u32,
    pub literals: u32,
}

impl fmt::Display for Measure {
    ghost output = { λ measure. Some (measure_bytes measure) };

    fn fmt<W: fmt::Write>(&self, f: &mut fmt::Formatter<W>) -> fmt::Result {
        let Measure {
            variables,
            clauses,
            literals,
        } = self;
        write!(
            f,
            "{variables} variables, {clauses} clauses, {literals} literals"
        )
    }
}

impl Rack {
    // How many sets of one net more than the pins end on a chip.
    fn conflicts_on(&self, chip: u32) -> u32
        ensures value { result ≡ subset_count (load chip (held_in self.now).rows) ((held_in self.now).pins + 1) }
        ensures bound { result ≤ 201376 }
    {
        subset_count(
            self.table.load(chip) as usize,
            usize::from(self.sizes.pins()) + 1,
        )
        .unwrap()
    }

    // The same over all chips.
    fn conflicts(&self) -> u32
        ensures value { result ≡ conflicts (held_in self.now) }
        ensures bound { result ≤ 32 * 201376 }
    {
        (1..=u32::from(self.sizes.chips()))
            .map(|chip| self.conflicts_on(chip))
            .sum()
    }
}

impl SealedBoard {
    // The variables, clauses and literals of the board's formula.
    pub fn measure(&self) -> Measure
        ensures { result ≡ measured (held_sealed self.now) }
    {
        let nets = self.rack.table.count();
        let fpics = u32::from(self.rack.sizes.fpics());
        let pins = u32::from(self.rack.sizes.pins());
        let conflicts = self.rack.conflicts();
        Measure {
            variables: nets * fpics,
            clauses: nets + nets * fpics * (fpics - 1) / 2 + fpics * conflicts,
            literals: nets * fpics * fpics + fpics * (pins + 1) * conflicts,
        }
    }
}
