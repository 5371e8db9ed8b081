// Numbers in decimal digits: how many bytes they take, and writing them.
ghost use Rattle.std.specs.Prelude.{◌≡◌, ◌≤◌, length, if◌then◌else◌};
ghost use Rattle.sat.specs.Formula.{is_zero};
ghost use Rattle.clauses.specs.Filling.{Writes};
ghost use Rattle.clauses.specs.Text.{printed, spelled};

use crate::writing::write_all;
use itoa::{Buffer, Integer};

// The bytes of a number.
pub(crate) fn decimal_length<I: Integer>(number: I) -> usize
    ensures value { result ≡ length (I.text number) }
    ensures bound { result ≤ I.MAX_STR_LEN }
{
    let mut buffer = Buffer::new();
    buffer.format(number).len()
}

// The bytes of a literal and its space.
pub(crate) fn literal_length(literal: i16) -> usize
    ensures value { result ≡ length (spelled literal) }
    ensures bound { result ≤ 7 }
{
    decimal_length(literal) + 1
}

// Writes a number.
pub(crate) fn write_decimal<I: Integer>(number: I, out: &mut [u8]) -> usize
    requires { length (I.text number) ≤ length out.old }
    ensures { Writes (I.text number) out.old out.new result }
{
    let mut buffer = Buffer::new();
    write_all(buffer.format(number).as_bytes(), out)
}

// What stands behind a number: a space, or the end of the line behind the 0 of a clause.
fn separator(number: i16) -> u8
    ensures { result ≡ (if is_zero number then 10 else 32) }
{
    if number == 0 { b'\n' } else { b' ' }
}

// Writes a number of a formula and what stands behind it.
pub(crate) fn write_number(number: i16, out: &mut [u8]) -> usize
    requires { length (printed number) ≤ length out.old }
    ensures { Writes (printed number) out.old out.new result }
{
    let digits = write_decimal(number, out);
    out[digits] = separator(number);
    digits + 1
}
