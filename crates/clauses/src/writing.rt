// Writing to the front of a lent buffer. Each function answers how many elements it wrote.
ghost use Rattle.std.specs.Prelude.{◌≡◌, ◌+◌, ◌≤◌, [], ◌∷◌, ◌++◌, length, pos};
ghost use Rattle.clauses.specs.Filling.{Writes};
ghost use Rattle.clauses.specs.Sets.{set_numbers};

use crate::block::Literals;

// Copies the elements.
pub(crate) fn write_all<T: Copy>(elements: &[T], out: &mut [T]) -> usize
    requires { length elements.now ≤ length out.old }
    ensures { Writes elements.now out.old out.new result }
{
    let count = elements.len();
    out[..count].copy_from_slice(elements);
    count
}

// Writes a clause: its literals, and 0.
fn write_clause(literals: &[i16], out: &mut [i16]) -> usize
    requires { length literals.now + 1 ≤ length out.old }
    ensures { Writes (literals.now ++ (pos 0 ∷ [])) out.old out.new result }
{
    let count = write_all(literals, out);
    out[count] = 0;
    count + 1
}

// Writes a clause for each set of so many literals, in lexicographic order; each begins with the front.
pub(crate) fn write_sets(
    front: &mut Literals,
    size: usize,
    literals: &[i16],
    out: &mut [i16],
) -> usize
    requires room { length front.old.items + size ≤ 32 }
    requires fits { length (set_numbers front.old.items size literals.now) ≤ length out.old }
    ensures keeps { front.new.items ≡ front.old.items }
    ensures writes { Writes (set_numbers front.old.items size literals.now) out.old out.new result }
{
    if size == 0 {
        return write_clause(front.as_slice(), out);
    }
    if literals.len() < size {
        return 0;
    }
    let rest = &literals[1..];
    front.push(literals[0]);
    let count = write_sets(front, size - 1, rest, out);
    front.pop();
    count + write_sets(front, size, rest, &mut out[count..])
}
