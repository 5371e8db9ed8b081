// What a program may look at in any board.
ghost use Rattle.std.specs.Prelude.{◌≡◌, if◌then◌else◌, None};
ghost use Rattle.board.specs.Finds.{is_number};
ghost use Rattle.board.specs.Rows.{load, nets, row_of};
ghost use Rattle.board.specs.Views.{held_in};

use crate::net::Net;
use crate::number::NetNumber;
use crate::rack::Rack;
use crate::sizes::Sizes;

impl Rack {
    pub fn sizes(&self) -> Sizes
        ensures chips { result.chips ≡ (held_in self.now).chips }
        ensures fpics { result.fpics ≡ (held_in self.now).fpics }
        ensures pins { result.pins ≡ (held_in self.now).pins }
    {
        self.sizes
    }

    pub fn chips(&self) -> u8
        ensures { result ≡ (held_in self.now).chips }
    {
        self.sizes.chips()
    }

    pub fn fpics(&self) -> u8
        ensures { result ≡ (held_in self.now).fpics }
    {
        self.sizes.fpics()
    }

    pub fn pins(&self) -> u8
        ensures { result ≡ (held_in self.now).pins }
    {
        self.sizes.pins()
    }

    // The net of a number, if it is held.
    pub fn net(&self, number: u32) -> Option<Net>
        ensures { result ≡ (if is_number number then row_of (held_in self.now).rows number else None) }
    {
        let number = NetNumber::try_from(number).ok()?;
        self.table.net(number)
    }

    // How many nets are held.
    pub fn count(&self) -> u32
        ensures { result ≡ nets (held_in self.now).rows }
    {
        self.table.count()
    }

    // How many nets end on a chip.
    pub fn load(&self, chip: u32) -> u32
        ensures { result ≡ load chip (held_in self.now).rows }
    {
        self.table.load(chip)
    }
}
