// Each call: the port is asked with a line's arguments, and its answer held against the line's.
use crate::draw::Draw;
use crate::lent::Frame;
use crate::place::Place;
use arrayvec::ArrayVec;
use c_frame::emitted::{emitted_pixel, emitted_pixels};

#[derive(Clone, Copy, PartialEq, Eq)]
pub enum Call {
    Draw,
    Read,
    Masks, // a run of emitted pixels
    Mask, // one by its place
}

// Whether a call's number and its values are those that a line has next, behind ` =`. A number that isn't there is a zero, and a value
// that isn't there is another. replay's `held` asks for the line's end too, where slices may follow here.
fn held(line: &mut Place<'_>, number: u32, values: &[u64]) -> bool {
    let _ = line.skip(b" =");
    let mut same = line.read().unwrap_or(0) == number;
    for value in values {
        let recorded: Option<u32> = line.read();
        same &= recorded.is_some_and(|word| u64::from(word) == *value);
    }
    same
}

// Here and below the fields of a frame are spelled out: the C interface takes a frame as plain slices. Line, engine and frame stay three: the line is read,
// the engine, by its number in the C interface, is the replay's, and the frame is drawn on or read.
fn draw(line: &mut Place<'_>, engine: u8, frame: &mut Frame) -> Option<bool> {
    let draw = Draw::read(line)?;
    let answer = c_frame::draw(
        engine,
        frame.width,
        frame.height,
        frame.colors.as_mut_slice(),
        frame.coverages.as_mut_slice(),
        frame.marks.as_mut_slice(),
        &draw.call(),
    );
    Some(held(line, answer.number, &[answer.pixels]))
}

fn read(line: &mut Place<'_>, frame: &Frame) -> Option<bool> {
    let answer = c_frame::read_word(
        frame.width,
        frame.height,
        frame.colors.as_slice(),
        frame.coverages.as_slice(),
        frame.marks.as_slice(),
        line.read()?,
        line.read()?,
        line.read()?,
        line.read()?,
        line.read()?,
    );
    Some(held(line, answer.number, &[u64::from(answer.value)]))
}

fn mask(line: &mut Place<'_>, engine: u8, frame: &Frame) -> Option<bool> {
    let draw = Draw::read(line)?;
    let answer = emitted_pixel(
        engine,
        frame.width,
        frame.height,
        frame.colors.as_slice(),
        frame.coverages.as_slice(),
        frame.marks.as_slice(),
        &draw.call(),
        line.read()?,
    );
    let values = [u64::from(answer.pixel), u64::from(answer.mask)];
    Some(held(line, answer.number, &values))
}

// The two slices stand in the line as they are lent, and behind the answer as they are then.
fn masks(line: &mut Place<'_>, engine: u8, frame: &Frame) -> Option<bool> {
    let draw = Draw::read(line)?;
    let first = line.read()?;
    let mut pixels: ArrayVec<u32, 48> = line.list()?;
    let mut masks: ArrayVec<u8, 48> = ArrayVec::new();
    line.string(&mut masks)?;
    let answer = emitted_pixels(
        engine,
        frame.width,
        frame.height,
        frame.colors.as_slice(),
        frame.coverages.as_slice(),
        frame.marks.as_slice(),
        &draw.call(),
        first,
        pixels.as_mut_slice(),
        masks.as_mut_slice(),
    );
    let counts = held(line, answer.number, &[answer.listed, answer.emitted]);
    let recorded: ArrayVec<u32, 48> = line.list()?;
    let same = recorded.as_slice() == pixels.as_slice();
    Some(counts & same & line.put_over(masks.as_mut_slice()))
}

impl Call {
    // `Mask` last, since its name begins the name of `Masks`.
    pub const ALL: [Call; 4] = [Call::Draw, Call::Read, Call::Masks, Call::Mask];

    pub fn name(self) -> &'static str {
        match self {
            Call::Draw => "draw",
            Call::Read => "read",
            Call::Masks => "masks",
            Call::Mask => "mask",
        }
    }

    // The call that a line names, and the place behind its name.
    pub fn named<'a>(line: Place<'a>) -> Option<(Call, Place<'a>)> {
        Call::ALL.into_iter().find_map(|call| {
            let mut arguments = line;
            arguments.skip(call.name().as_bytes())?;
            Some((call, arguments))
        })
    }

    // Whether the port answers a line's arguments as the line does, or None where the arguments or a run's pixels have another form. Where
    // the masks of an empty run have no length, that shows in the place alone (`found`).
    pub fn agrees(self, line: &mut Place<'_>, engine: u8, frame: &mut Frame) -> Option<bool> {
        match self {
            Call::Draw => draw(line, engine, frame),
            Call::Read => read(line, frame),
            Call::Masks => masks(line, engine, frame),
            Call::Mask => mask(line, engine, frame),
        }
    }
}
