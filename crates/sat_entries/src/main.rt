// Lists every field of satellite access table bodies.
// Each line of the input is a case: a table id byte and a body, in hexadecimal.
// For each case it writes `case id N bytes N`, a line `name value` for every field, or the refusal, and an empty line.
#![tactic(auto)]

use input::Line;
use list_text::Listing;
use output::Output;
use std::io;
use std::io::{Read, Write};

mod case;
mod input;
mod output;
#[cfg(test)]
mod tests;

// Lists the cases of the input, read a block at a time, counted by a number that no run uses up. A read that fails ends
// it.
fn list_all<R: Read, W: Write>(input: &mut R, to: &mut W) -> io::Result<()> {
    let mut out = Listing::new(to);
    let mut line = Line::new();
    let mut block = [0u8; 65536];
    for _ in 0..u64::MAX {
        let n = input.read(&mut block).unwrap_or(0);
        if n == 0 {
            break;
        }
        for &character in &block[..n] {
            if character == b'\n' {
                line.show(&mut out)?;
                line.clear();
            } else {
                line.take(character);
            }
        }
    }
    // A last line that no line end follows.
    if !line.is_empty() {
        line.show(&mut out)?;
    }
    Ok(())
}

fn list(rt: &HostRuntime) -> io::Result<()> {
    let mut to = Output::new(rt.stdout());
    list_all(&mut rt.stdin(), &mut to)?;
    to.flush()
}

// Where the output cannot be written the program stops, and tries no more of it: there is nowhere else to say so. All
// the memory that it takes is there from the start.
fn main(rt: HostRuntime) {
    let _ = list(&rt);
}
