// The reader of a netlist: it borrows the text from its place on, and keeps the number of the line there.
ghost use Rattle.std.specs.Prelude.{◌≡◌, ◌+◌, ◌≤◌, length};

#[derive(Clone, Copy)]
pub(crate) struct Reader<'a> {
    pub(crate) rest: &'a [u8],
    // counted from 1
    pub(crate) line: u32,
    ghost counted: { line + length rest.now ≤ 16385 },
}

impl<'a> Reader<'a> {
    // A reader at the start of a text.
    pub(crate) fn new(text: &'a [u8]) -> Reader<'a>
        requires { length text.now ≤ 16384 }
        ensures rest { result.rest.now ≡ text.now }
        ensures line { result.line ≡ 1 }
    {
        Reader {
            rest: text,
            line: 1,
        }
    }
}
