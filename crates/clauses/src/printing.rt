// The text of a sealed board's formula.
ghost use Rattle.std.specs.Prelude.{◌≤◌, ◌++◌, length, decimal};
ghost use Rattle.std.specs.List.{flat_map};
ghost use Rattle.board.specs.Views.{held_sealed};
ghost use Rattle.clauses.specs.Filling.{Writes};
ghost use Rattle.clauses.specs.Text.{Printed, head_of, printed};

use crate::buffer::{Buffer, ShortBuffer};
use crate::decimals::{write_decimal, write_number};
use crate::lengths::head_length;
use crate::numbers::number_count;
use crate::ranking::Ranking;
use crate::writing::write_all;
use board::{Measure, SealedBoard};

// Writes a word and a number behind it.
fn write_field(word: &[u8], n: u32, out: &mut [u8]) -> usize
    requires { length (word.now ++ decimal n) ≤ length out.old }
    ensures { Writes (word.now ++ decimal n) out.old out.new result }
{
    let count = write_all(word, out);
    count + write_decimal(n, &mut out[count..])
}

// Writes the first line.
fn write_head(measure: Measure, out: &mut [u8]) -> usize
    requires { length (head_of measure.variables measure.clauses) ≤ length out.old }
    ensures { Writes (head_of measure.variables measure.clauses) out.old out.new result }
{
    let mut count = write_field(b"p cnf ", measure.variables, out);
    count += write_field(b" ", measure.clauses, &mut out[count..]);
    count + write_all(b"\n", &mut out[count..])
}

// Writes the numbers of a formula, a clause a line.
fn write_lines(numbers: &[i16], out: &mut [u8]) -> usize
    requires { length (flat_map printed numbers.now) ≤ length out.old }
    ensures { Writes (flat_map printed numbers.now) out.old out.new result }
{
    let mut count = 0;
    for number in numbers {
        count += write_number(*number, &mut out[count..]);
    }
    count
}

// Writes the formula of the board to the front of the first buffer and its text to the front of the second, and answers the text's length.
pub fn text(board: &SealedBoard, formula: &mut [i16], out: &mut [u8]) -> Result<usize, ShortBuffer>
    ensures { Printed (held_sealed board.now) formula.old formula.new out.old out.new result }
{
    let measure = board.measure();
    let count = number_count(measure);
    Buffer::Formula.check(formula.len(), count)?;
    let ranking = Ranking::of(board);
    let needed = head_length(measure) + ranking.lines_length();
    Buffer::Text.check(out.len(), needed)?;
    ranking.write(formula);
    let head = write_head(measure, out);
    let lines = write_lines(&formula[..count], &mut out[head..]);
    Ok(head + lines)
}
