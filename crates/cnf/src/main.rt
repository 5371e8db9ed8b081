// Reads a netlist from standard input and prints the text of its formula, or the line of the refusal.
#![tactic(auto)]

ghost use Rattle.std.specs.Prelude.{◌≤◌, length, IfOk};

mod answer;
mod refused;

use answer::answer;
use anyhow::anyhow;
use netlist::Notice;
use std::io::{Read, Write};

// One byte more than a netlist may have, so that a longer one is told.
const NETLIST_ROOM: usize = 16385;

const FORMULA_ROOM: usize = 8192;
// The text of a formula of so many numbers is never longer.
const TEXT_ROOM: usize = 49168;

// Fills the buffer from standard input as far as there is any, and answers how far.
fn fill(rt: &HostRuntime, buffer: &mut [u8]) -> anyhow::Result<usize>
    ensures { IfOk result (λ end. end ≤ length buffer.old) }
{
    let mut input = rt.stdin();
    let mut end = 0;
    while end < buffer.len() {
        let count = input.read(&mut buffer[end..])?;
        if count == 0 {
            break;
        }
        end += count;
    }
    Ok(end)
}

fn main(rt: HostRuntime) -> anyhow::Result<()> {
    let heap = rt.alloc();
    let mut netlist = vec![in heap; 0; NETLIST_ROOM]?;
    let mut formula = vec![in heap; 0; FORMULA_ROOM]?;
    let mut text = vec![in heap; 0; TEXT_ROOM]?;
    let end = fill(&rt, &mut netlist)?;
    netlist.truncate(end);
    match answer(&netlist, &mut formula, &mut text) {
        Ok(count) => {
            text.truncate(count);
            rt.stdout().write_all(&text)?;
            Ok(())
        }
        Err(refused) => {
            let line = Notice::from(refused).print(heap)?;
            rt.stdout().write_all(line.as_bytes())?;
            Err(anyhow!("refused"))
        }
    }
}
