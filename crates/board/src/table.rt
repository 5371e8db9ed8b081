// The rows of the 128 net numbers. Net n has row n - 1; a number without a net has an empty row.
ghost use Rattle.std.specs.Prelude.{◌≡◌, ◌-◌, ◌≤◌, length, replicate, slice_set, None};
ghost use Rattle.board.specs.Rows.{row_of, ends_on, load, nets};

use crate::net::Net;
use crate::number::NetNumber;

#[derive(Drop)]
pub(crate) struct Table {
    rows: [Option<Net>; 128],
    // where no code reads the array, as in a lemma on a board, only this tells its length
    ghost long: { length rows ≡ 128 },
}

impl Table {
    pub(crate) fn empty() -> Table
        ensures { result.rows ≡ replicate 128 None }
    {
        Table { rows: [None; 128] }
    }

    // The net of a number, if it is held.
    pub(crate) fn net(&self, number: NetNumber) -> Option<Net>
        ensures { result ≡ row_of self.now.rows number }
    {
        self.rows[number.place()]
    }

    // Writes the row of a number.
    pub(crate) fn set(&mut self, number: NetNumber, row: Option<Net>)
        ensures { self.new.rows ≡ slice_set self.old.rows (number - 1) row }
    {
        self.rows[number.place()] = row;
    }

    // How many nets end on a chip.
    pub(crate) fn load(&self, chip: u32) -> u32
        ensures value { result ≡ load chip self.now.rows }
        ensures bound { result ≤ 128 }
    {
        let mut count = 0;
        for row in &self.rows {
            if ends_on(row, chip) {
                count += 1;
            }
        }
        count
    }

    // How many nets are held.
    #[tactic(auto, unfolding(crate::specs::Rows::nets))]
    pub(crate) fn count(&self) -> u32
        ensures value { result ≡ nets self.now.rows }
        ensures bound { result ≤ 128 }
    {
        self.rows.iter().map(|row| u32::from(row.is_some())).sum()
    }
}

// Whether a row holds a net that ends on a chip.
fn ends_on(row: &Option<Net>, chip: u32) -> bool
    ensures { result ≡ ends_on chip row.now }
{
    row.is_some_and(|net| net.ends_on(chip))
}
