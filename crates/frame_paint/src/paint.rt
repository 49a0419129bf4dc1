// What does not turn on the pixel is worked out once a draw: the combiner resolved, the colour that it gives for the shade 1.0, the bytes that every opaque pixel has unless P
// is the pixel's colour, what full pixels of that colour need, and whether that is enough for them.
ghost use Rattle.std.specs.Prelude.{◌≡◌, ◌||◌, Some, None, ◌==◌, if◌then◌else◌};
ghost use Rattle.combiner.specs.Combine.{color_of, full_shade};
ghost use Rattle.combiner_resolved.specs.Resolved.{color_value, resolved_of, Mixed};
ghost use Rattle.blender.specs.Mux.{mux_of};
ghost use Rattle.blender.specs.Layer.{steady_of};
ghost use Rattle.frame_pixel.specs.Coloring.{own_colors, ColoringOf};
ghost use Rattle.frame_pixel.specs.Full.{FullOf};
ghost use Rattle.frame_paint.specs.Paint.{Own};

use blender::layer::{layer_of, layered};
use combiner::Combiner;
use combiner_resolved::Resolved;
use frame_pixel::full::Full;
use frame_pixel::{Coloring, Colors};
use state::{RenderMode, Rgba};

// What does not turn on the pixel, of one draw.
#[derive(Clone, Copy)]
pub struct Paint {
    pub mode: RenderMode,
    pub combiner: Combiner,
    pub resolved: Resolved,
    pub color: Rgba,
    pub own: Option<Colors>,
    pub full: Full,
    pub even: bool,
    pub ghost resolves: { resolved ≡ resolved_of combiner },
    pub ghost colored: { color_of combiner full_shade ≡ color_value color },
    pub ghost owned: { Own mode combiner own },
    pub ghost filled: { FullOf mode combiner color full },
    // `even` says whether what full pixels of the colour need is enough for them.
    pub ghost enough: { even ≡ (full.layered || (steady_of mode || full.sure)) },
}

impl Paint {
    // That the combiner has a colour for every shade is a clause, here and in the crates above, and no ghost field of Paint or Shapes: these types would ask it of callers that
    // need it not.
    pub fn new(mode: RenderMode, combiner: Combiner) -> Paint
        requires { Mixed combiner }
        ensures same_mode { result.mode ≡ mode }
        ensures same_combiner { result.combiner ≡ combiner }
        ensures own { result.own ≡ (if (mux_of mode.blender_mux).p == 0 then None else Some (own_colors mode combiner result.color)) }
    {
        let resolved = combiner_resolved::resolve(combiner);
        let color = combiner.color(combiner::full_shade()).unwrap();
        let full = frame_pixel::full::full_of(mode, combiner, color);
        let steady = blender::layer::steady(mode);
        let even = full.layered | (steady | full.sure);
        let mux = blender::decode_mux(mode.blender_mux);
        let own = (mux.p != 0).then_some(full.own);
        Paint {
            mode,
            combiner,
            resolved,
            color,
            own,
            full,
            even,
        }
    }
}

// What is known ahead of a pixel of this colour. The bytes of an opaque one are those that all pixels have, else its own, which are worked out only then.
#[tactic(auto, unfolding(frame_pixel::specs::Coloring::ColoringOf))]
pub fn coloring_of(
    mode: &RenderMode,
    combiner: &Combiner,
    own: &Option<Colors>,
    color: Rgba,
) -> Coloring
    requires { Own mode.now combiner.now own.now }
    ensures { ColoringOf mode.now combiner.now color result }
{
    if blender::opaque(*mode, color.a) {
        return Coloring::Opaque(own.unwrap_or_else(|| Colors::from(color)));
    }
    if layered(*mode, color.a) {
        return Coloring::Layered(layer_of(*mode, *combiner, color));
    }
    Coloring::Blended
}
