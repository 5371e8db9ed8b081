// The open board: it takes edits, and is sealed to be measured and routed.
ghost use Rattle.std.specs.Prelude.{◌≡◌, ℕ, Some, None, Ok, Err};
ghost use Rattle.board.specs.Held.{blank, judged, after, answer};
ghost use Rattle.board.specs.Laws.{Lawful, LowestFullEnd, RowAlone};
ghost use Rattle.board.specs.Rows.{relocked, row_of};
ghost use Rattle.board.specs.Views.{held_in, held_open, held_sealed};
ghost use Rattle.board.specs.declared.edit.Edit.TheVariants.{Make, Add, Drop, Lock, Unlock};
ghost use Rattle.board.specs.declared.refusal.Refusal.TheVariants.{ChipFull};

use crate::net::Net;
use crate::number::NetNumber;
use crate::rack::Rack;
use crate::refusal::Refusal;
use crate::sealed::SealedBoard;
use crate::sizes::Sizes;
use crate::table::Table;

#[derive(Drop)]
pub struct OpenBoard {
    pub(crate) rack: Rack,
}

impl OpenBoard {
    // The board of 2 chips, 1 FPIC and 1 pin, without nets.
    pub fn blank() -> OpenBoard
        ensures { held_open result ≡ blank }
    {
        OpenBoard {
            rack: Rack {
                sizes: Sizes::smallest(),
                table: Table::empty(),
            },
        }
    }

    // What the board holds.
    pub fn rack(&self) -> &Rack
        ensures same { held_in result.now ≡ held_open self.now }
        ensures lawful { Lawful (held_in result.now) }
    {
        &self.rack
    }

    // Turns the board into one of these sizes without nets.
    pub fn make(&mut self, chips: u32, fpics: u32, pins: u32) -> Result<(), Refusal>
        ensures answers { result ≡ answer (judged (held_open self.old) (Make chips fpics pins)) }
        ensures leaves { held_open self.new ≡ after (held_open self.old) (Make chips fpics pins) }
    {
        self.rack = Rack {
            sizes: Sizes::new(chips, fpics, pins)?,
            table: Table::empty(),
        };
        Ok(())
    }

    // Enters a net with its ends, chip c at bit c - 1, and without a lock.
    pub fn add(&mut self, net: u32, ends: u32) -> Result<(), Refusal>
        ensures answers { result ≡ answer (judged (held_open self.old) (Add net ends)) }
        ensures leaves { held_open self.new ≡ after (held_open self.old) (Add net ends) }
        ensures enters { result ≡ Ok tt → RowAlone (held_open self.old) (held_open self.new) net (Some (record { ends = ends; lock = None })) }
        ensures names { (chip : ℕ) → result ≡ Err (ChipFull chip) → LowestFullEnd (held_open self.old) ends chip }
    {
        let number = NetNumber::try_from(net)?;
        if self.rack.table.net(number).is_some() {
            return Err(Refusal::AlreadyHeld);
        }
        if !self.rack.are_ends(ends) {
            return Err(Refusal::UnfitEnds);
        }
        if let Some(chip) = self.rack.lowest_full(ends) {
            return Err(Refusal::ChipFull { chip: chip as u8 });
        }
        let row = Some(Net { ends, lock: None });
        self.rack.table.set(number, row);
        Ok(())
    }

    // Strikes a net and its lock.
    pub fn remove(&mut self, net: u32) -> Result<(), Refusal>
        ensures answers { result ≡ answer (judged (held_open self.old) (Drop net)) }
        ensures leaves { held_open self.new ≡ after (held_open self.old) (Drop net) }
        ensures strikes { result ≡ Ok tt → RowAlone (held_open self.old) (held_open self.new) net None }
    {
        let number = NetNumber::try_from(net)?;
        self.rack.find(number)?;
        self.rack.table.set(number, None);
        Ok(())
    }

    // Ties a net to an FPIC, A being 0, in place of any other.
    pub fn lock(&mut self, net: u32, letter: u32) -> Result<(), Refusal>
        ensures answers { result ≡ answer (judged (held_open self.old) (Lock net letter)) }
        ensures leaves { held_open self.new ≡ after (held_open self.old) (Lock net letter) }
        ensures locks { result ≡ Ok tt → RowAlone (held_open self.old) (held_open self.new) net (relocked (Some letter) (row_of (held_open self.old).rows net)) }
    {
        let number = NetNumber::try_from(net)?;
        let found = self.rack.find(number)?;
        if letter >= u32::from(self.rack.sizes.fpics()) {
            return Err(Refusal::NoSuchFpic);
        }
        let lock = Some(letter as u8);
        let row = Some(Net { lock, ..found });
        self.rack.table.set(number, row);
        Ok(())
    }

    // Removes a net's lock.
    pub fn unlock(&mut self, net: u32) -> Result<(), Refusal>
        ensures answers { result ≡ answer (judged (held_open self.old) (Unlock net)) }
        ensures leaves { held_open self.new ≡ after (held_open self.old) (Unlock net) }
        ensures unlocks { result ≡ Ok tt → RowAlone (held_open self.old) (held_open self.new) net (relocked None (row_of (held_open self.old).rows net)) }
    {
        let number = NetNumber::try_from(net)?;
        let found = self.rack.find(number)?;
        if found.lock.is_none() {
            return Err(Refusal::NotLocked);
        }
        let row = Some(Net {
            lock: None,
            ..found
        });
        self.rack.table.set(number, row);
        Ok(())
    }

    // A board that can be measured and routed.
    pub fn seal(self) -> SealedBoard
        ensures { held_sealed result ≡ held_open self }
    {
        let OpenBoard { rack } = self;
        SealedBoard { rack }
    }
}
