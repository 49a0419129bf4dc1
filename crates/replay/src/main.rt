// Replays recorded answers of the Rust original on the port: reads lines of standard input, each a call's name, its arguments
// and the original's answers, asks the port the same, and counts by name how often the two agree.
//
//     name argument words = answer words
//
// The sample, the file stdin beside src/, is what `record answers` writes with its own seed, 640064: plain and hostile
// arguments for each call, and refused ones where a call refuses. Whole numbers and truth values agree where they are the same;
// floats agree where they are equal, so 0.0 is -0.0, or both NaN. A line of another form is a disagreement.
#![tactic(auto)]

mod answers;
mod call;
mod tally;

use replay_values::input::{each_line, with_text};
use std::io;
use std::io::Write;
use tally::Tally;

// Counts every line of a text, and prints each that disagrees, and the counts.
fn replay<W: Write>(out: &mut W, text: &[u8]) -> io::Result<()> {
    let mut tally = Tally::new();
    each_line(text, |number, line| {
        if tally.count(line) {
            return Ok(());
        }
        write!(out, "line {number}: ")?;
        out.write_all(line)?;
        out.write_all(b"\n")
    })?;
    write!(out, "{tally}")
}

fn main(rt: HostRuntime) -> io::Result<()> {
    let mut out = io::writer(&rt);
    with_text(&mut rt.reader(), &mut out, |out, text| replay(out, text))
}
