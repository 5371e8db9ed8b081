// A block of clauses: one for each set of so many literals of a list.
ghost use Rattle.std.specs.Prelude.{◌≡◌, ◌<◌, ◌≤◌, length};

use arrayvec::ArrayVec;

// A list of literals: no net or chip has more than 32 of them.
pub(crate) type Literals = ArrayVec<i16, 32>;

#[derive(Drop)]
pub struct Block {
    pub(crate) literals: Literals,
    pub(crate) size: usize,
    ghost some: { 1 ≤ size },
    // sets of more than five are taken of that many literals only
    ghost whole: { 5 < size → size ≡ length literals.items },
}
