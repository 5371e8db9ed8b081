// The forms of a netlist line.
ghost use Rattle.std.specs.Prelude.{◌≡◌};
ghost use Rattle.netlist.specs.Lines.{edit_of};
ghost use Rattle.netlist.specs.Pieces as pieces;
ghost use Rattle.netlist.specs.Place.{Finds, FindsAs, NextLine};

use crate::reader::Reader;
use board::Edit;

impl<'a> Reader<'a> {
    // The letter that a line begins with, and its first number.
    fn opening(&mut self, letter: u8) -> Option<u32>
        ensures { Finds (pieces.opening letter) self.old result self.new }
    {
        self.expect(letter)?;
        self.field()
    }

    // `B p k m`
    fn board_line(&mut self) -> Option<Edit>
        ensures { FindsAs edit_of (pieces.form 66) self.old result self.new }
    {
        let chips = self.opening(b'B')?;
        let fpics = self.field()?;
        let pins = self.field()?;
        self.end_of_line()?;
        Some(Edit::Make { chips, fpics, pins })
    }

    // `N n c c ..`
    fn net_line(&mut self) -> Option<Edit>
        ensures { FindsAs edit_of (pieces.form 78) self.old result self.new }
    {
        let net = self.opening(b'N')?;
        let ends = self.chips()?;
        Some(Edit::Add { net, ends })
    }

    // `L n A`
    fn lock_line(&mut self) -> Option<Edit>
        ensures { FindsAs edit_of (pieces.form 76) self.old result self.new }
    {
        let net = self.opening(b'L')?;
        self.space()?;
        let letter = self.letter()?;
        self.end_of_line()?;
        Some(Edit::Lock { net, letter })
    }

    // The next line, as it may stand at its place: a board line first, and then nets and locks.
    fn form(&mut self) -> Option<Edit>
        ensures { FindsAs edit_of (pieces.line_at self.old.line) self.old result self.new }
    {
        if self.line == 1 {
            return self.board_line();
        }
        match self.rest.first() {
            Some(b'N') => self.net_line(),
            _ => self.lock_line(),
        }
    }

    // The edit of the next line, which is then behind the reader; or none, and the reader stays.
    pub(crate) fn next_line(&mut self) -> Option<Edit>
        ensures { NextLine self.old result self.new }
    {
        let mut ahead = *self;
        let edit = ahead.form()?;
        ahead.line += 1;
        *self = ahead;
        Some(edit)
    }
}
