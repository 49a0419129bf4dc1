// A draw, as a line has it.
ghost use Rattle.std.specs.Prelude.{◌≤◌, IfSome, IsSome, IsNone, MatchOption};

use crate::place::Place;
use arrayvec::ArrayVec;
use c_draw::GeometryParts;
use c_types::Mode;
use frame_draw::DrawCall;
use raster_pixel::Scissor;
use replay_values::line::{FromLine, Line};
use state::CombinerUniform;

// Its floats are vertices.
#[derive(Drop)]
pub struct Draw {
    pub mode: Mode,
    pub uniform: CombinerUniform,
    pub cull: bool,
    pub scissor: Scissor,
    pub geometry: GeometryParts,
    pub vertices: ArrayVec<f32, 48>,
    pub present: ArrayVec<u8, 8>,
    pub indices: ArrayVec<u32, 48>,
}

impl Draw {
    // The draw that a line has next. Words that its mode or its uniform lacks are zeros, which are set only where all else is there.
    pub fn read(line: &mut Place<'_>) -> Option<Draw>
        ensures { IfSome result (λ _. IsSome line.new.left.rest) }
    {
        let before_mode = line.ahead();
        let mode = line.read();
        let before_uniform = line.ahead();
        let uniform = line.read();
        let Position {
            cull,
            scissor,
            geometry,
        } = line.read()?;
        let vertices = line.list()?;
        let mut present = ArrayVec::new();
        line.string(&mut present)?;
        let indices = line.list()?;
        Some(Draw {
            mode: mode.or_else(|| padded(before_mode, 21))?,
            uniform: uniform.or_else(|| padded(before_uniform, 60))?,
            cull,
            scissor,
            geometry,
            vertices,
            present,
            indices,
        })
    }

    pub fn call(&self) -> DrawCall<'_> {
        c_frame::draw_call(
            self.mode,
            self.uniform,
            self.cull,
            self.scissor,
            self.geometry,
            self.vertices.as_slice(),
            self.present.as_slice(),
            self.indices.as_slice(),
        )
    }
}

// A draw in a line without a text around it.
impl FromLine for Draw {
    fn from_line(line: &mut Line<'_>) -> Option<Draw>
        ensures { MatchOption result (IsNone line.new.rest) (λ _. IsSome line.new.rest) }
    {
        let mut place = Place::alone(*line);
        let draw = Draw::read(&mut place);
        *line = match draw {
            Some(_) => place.line(),
            None => Line { rest: None },
        };
        draw
    }
}

// A value of so many words, at most 60, which `rest` begins with. From the first word that isn't there on they are zeros, and all are
// where the text has no room for them.
fn padded<T: FromLine + Drop>(rest: &[u8], words: usize) -> Option<T>
    requires { words ≤ 60 }
{
    let mut block: ArrayVec<u8, 540> = ArrayVec::new();
    let mut there = rest.len() >= 9 * words;
    for i in 0..words {
        let word = rest.get(9 * i..9 * i + 9).unwrap_or(b"");
        there = there && Line::new(word).read::<u32>().is_some();
        let next = if there { word } else { b" 00000000" };
        let _ = block.try_extend_from_slice(next); // 60 words fit
    }
    Line::new(block.as_slice()).read()
}

// Where a draw falls, and what it draws.
#[derive(Clone, Copy)]
struct Position {
    cull: bool,
    scissor: Scissor,
    geometry: GeometryParts,
}

fn scissor(line: &mut Line<'_>) -> Option<Scissor> {
    Some(Scissor {
        left: line.read()?,
        top: line.read()?,
        width: line.read()?,
        height: line.read()?,
    })
}

fn geometry(line: &mut Line<'_>) -> Option<GeometryParts> {
    Some(GeometryParts {
        kind: u32::from(line.below(3)?),
        left: line.read()?,
        top: line.read()?,
        right: line.read()?,
        bottom: line.read()?,
    })
}

impl FromLine for Position {
    fn from_line(line: &mut Line<'_>) -> Option<Position> {
        Some(Position {
            cull: line.read()?,
            scissor: scissor(line)?,
            geometry: geometry(line)?,
        })
    }
}

#[cfg(test)]
mod tests {
    use super::*;
    use std::test::Fail;

    #[test]
    fn reads_a_draw_of_a_line_alone(rt: HostRuntime) -> Result<(), Fail> {
        let mut text: ArrayVec<u8, 846> = ArrayVec::new();
        for _ in 0..94 {
            let _ = text.try_extend_from_slice(b" 00000000"); // 94 words fit
        }
        let mut line = Line::new(text.as_slice());
        let draw: Option<Draw> = line.read();
        assert!(rt; draw.is_some() && line.has_ended());
        let mut short = Line::new(text.as_slice().get(9..).ok_or("empty")?);
        let draw: Option<Draw> = short.read();
        assert!(rt; draw.is_none() && short.rest.is_none());
        Ok(())
    }
}
