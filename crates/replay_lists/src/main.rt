// Replays recorded lists of draws, emitted pixels and word reads on the port: reads lines of standard input, each a frame or a call
// with what it came to on the Rust original's functions, carries the calls out on a frame of its own, and counts how often the two
// agree: of the fast engine first, and then of the slow one.
//
//     frame width height colors coverages marks
//     draw mode uniform cull scissor geometry vertices present indices = number pixels colors coverages marks
//     read pixel fmt siz rgb_dither big_endian = number value
//     mask mode uniform cull scissor geometry vertices present indices k = number pixel mask
//     masks mode uniform cull scissor geometry vertices present indices first pixels masks = number listed emitted pixels masks
//
// The sample, the file stdin beside src/, is what `record lists` writes with its own seed. After each call, also one that draws
// nothing, every byte of the three slices is held against the recorded ones, which the next call of the list works on.
#![tactic(auto)]

mod tally;

use replay_calls::call::Call;
use replay_calls::list::List;
use replay_calls::place::Place;
use replay_values::counts::Counts;
use replay_values::input::{each_line, with_text};
use std::io;
use std::io::Write;
use tally::Tally;

fn complaint(call: Call) -> &'static str {
    match call {
        Call::Draw => ": another answer to a draw\n",
        Call::Read => ": another answer to a read\n",
        Call::Mask => ": another emitted pixel\n",
        Call::Masks => ": another run of emitted pixels\n",
    }
}

// Counts what a line came to, and complains where the two disagree.
fn count<W: Write>(
    out: &mut W,
    number: u64,
    counts: &mut Counts,
    agrees: bool,
    complaint: &str,
) -> io::Result<()> {
    counts.count(agrees);
    if agrees {
        return Ok(());
    }
    write!(out, "line {number}")?;
    out.write_all(complaint.as_bytes())
}

// Tallies every line of a text, asked of one engine by its number in the C interface, and prints the counts.
fn replay<W: Write>(out: &mut W, text: &[u8], engine: u8) -> io::Result<()> {
    let mut tally = Tally::default();
    let mut list = List::new();
    let mut rest = text;
    each_line(text, |number, line| {
        let place = Place::new(text, rest, line);
        rest = rest.get(line.len() + 1..).unwrap_or(b"");
        if let Some((call, arguments)) = Call::named(place) {
            if let Some(agreed) = list.replay_at(call, arguments, engine) {
                count(out, number, tally.of(call), agreed.answer, complaint(call))?;
                return count(
                    out,
                    number,
                    &mut tally.frames,
                    agreed.frame,
                    ": another frame\n",
                );
            }
        }
        if list.begin(place) {
            return Ok(());
        }
        count(
            out,
            number,
            &mut tally.others,
            false,
            ": no frame and no call\n",
        )
    })?;
    write!(out, "{tally}")
}

fn main(rt: HostRuntime) -> io::Result<()> {
    let mut out = io::writer(&rt);
    with_text(&mut rt.reader(), &mut out, |out, text| {
        out.write_all(b"the fast engine\n")?;
        replay(out, text, 0)?;
        out.write_all(b"the slow engine\n")?;
        replay(out, text, 1)
    })
}
