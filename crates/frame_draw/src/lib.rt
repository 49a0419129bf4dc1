// A draw over the lent frame (docs/RULES.md, A draw). What it is turned away for is checked before anything is written. The frame comes as the three slices that a host
// lends: before numbers 1 to 3 nothing says that they are a frame. Nor is there a struct of them for the public calls: a draw lends three &muts, whose struct would need clauses
// that each stays the same loan, and it is of what was lent, byte for byte, that a draw promises. The calls that only read take the frame in the same form.
#![tactic(auto)]

ghost use Rattle.std.specs.Prelude.{◌≡◌};
ghost use Rattle.raster_pixel.specs.Draw.{emitted_as};
ghost use Rattle.frame.specs.Frame.{frame_of};
ghost use Rattle.frame.specs.Lent.{before, after};
ghost use Rattle.frame_paint.specs.Pixel.{DrewOn};
ghost use Rattle.frame_draw.specs.Draw.{draw_of, drawn_means, draw_answer, draw_frame, Numbered};
ghost use Rattle.frame_draw.specs.Answered.{Planned};

use combiner::Combiner;
use frame_paint::Target;
use raster_pixel::{Geometry, Lists, Scissor, Shapes, View};
use refused::Refusal;
use state::{CombinerUniform, RenderMode};

pub mod accepted; // a draw that numbers 1 to 7 let through
mod refusal; // numbers 4 and 5

pub use crate::accepted::AcceptedDraw;

// Which engine finds a draw's pixels. They are the same: `Slow` is there to be read, docs/RASTERISER.md.
#[derive(Clone, Copy, Debug, PartialEq, Eq)]
pub enum Engine {
    Fast,
    Slow,
}

// A draw as it is asked for: everything but the frame and the engine.
#[derive(Clone, Copy)]
pub struct DrawCall<'a> {
    pub mode: RenderMode,
    pub uniform: CombinerUniform,
    pub cull: bool,
    pub scissor: Scissor,
    pub geometry: Geometry,
    pub lists: Lists<'a>,
}

// What numbers 1 to 7 say of a draw: the first that holds, or the draw that they let through.
pub fn accept<'a>(
    width: u32,
    height: u32,
    colors: &[u8],
    coverages: &[u8],
    marks: &[u8],
    draw: &DrawCall<'a>,
) -> Result<AcceptedDraw<'a>, Refusal>
    ensures plan { Planned (draw_of draw.now) width height (frame_of colors.now coverages.now marks.now) result }
{
    refusal::entry_refusal(width, height, colors, coverages, marks, draw)?;
    let combiner = Combiner::new(draw.uniform, draw.mode).ok_or(Refusal::Combiner)?;
    if !draw.lists.admitted(combiner, draw.geometry) {
        return Err(Refusal::Geometry);
    }
    let view = View {
        scissor: draw.scissor,
        width,
        height,
    };
    let shapes = Shapes {
        mode: draw.mode,
        combiner,
        cull: draw.cull,
        geometry: draw.geometry,
        lists: draw.lists,
    };
    Ok(AcceptedDraw { view, shapes })
}

// The pixels of an accepted draw, and their count.
fn rasterize_by(engine: Engine, target: &mut Target, draw: &AcceptedDraw) -> u64
    ensures drew { let s = draw.now.shapes in DrewOn s.mode s.combiner (emitted_as target.old.view s) target.old target.new result }
{
    // The host chooses at run time, and two calls are the plainest choice of two.
    match engine {
        Engine::Fast => rasterize::rasterize(target, &draw.shapes),
        Engine::Slow => rasterize_slow::rasterize(target, &draw.shapes),
    }
}

// A draw: the pixels that it emits, one after the other, and their count; or the first of numbers 1 to 7 that holds. The engine is no part of a DrawCall, here and in
// frame_emitted: it is how the draw is carried out, and shows in no answer.
pub fn draw(
    engine: Engine,
    width: u32,
    height: u32,
    colors: &mut [u8],
    coverages: &mut [u8],
    marks: &mut [u8],
    draw: &DrawCall,
) -> Result<u64, Refusal>
    ensures answer { drawn_means result ≡ draw_answer (draw_of draw.now) width height (before colors coverages marks) }
    ensures frame { after colors coverages marks ≡ draw_frame (draw_of draw.now) width height (before colors coverages marks) }
    ensures number { Numbered result }
{
    let accepted = accept(width, height, colors, coverages, marks, draw)?;
    let mut target = Target {
        view: accepted.view,
        colors,
        coverages,
        marks,
    };
    Ok(rasterize_by(engine, &mut target, &accepted))
}
