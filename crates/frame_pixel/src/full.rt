// Pixels with all eight samples, of one colour that is worked out ahead. What rule F5 does to their coverage is asked of it once: it makes every one 7, known
// before or not, or leaves every one.
ghost use Rattle.std.specs.Prelude.{◌≡◌, ◌≤◌};
ghost use Rattle.blender.specs.Blend.{or_zero};
ghost use Rattle.blender.specs.Layer.{layered_of, layer_of, opaque_of};
ghost use Rattle.frame_pixel.specs.Rules.{rule_f5};
ghost use Rattle.frame_pixel.specs.Coloring.{own_colors};
ghost use Rattle.frame_pixel.specs.Full.{is_full, FullOf};

use crate::{Colors, next_coverage};
use blender::Coverage;
use blender::layer::Layer;
use combiner::Combiner;
use state::{RenderMode, Rgba};

// The coverage of eight samples.
pub const FULL_COVERAGE: u8 = 7;

const ALL: u8 = 8;

// What full pixels of a colour need. As single fields and no enum: a loop over pixels asks them once.
#[derive(Clone, Copy)]
pub struct Full {
    pub layered: bool, // the colour is a layer over the memory's
    pub own: Colors, // its bytes if not
    pub layer: Layer, // the layer if so
    pub sure: bool, // its bytes are known over an unknown coverage too
    pub fills: bool, // F5 makes their coverage 7, known before or not, and else leaves it
    pub sets: u8, // the marks that they set whatever stood there: mark 2 if F5 makes their coverage 7
}

fn is_full(coverage: Coverage) -> bool
    ensures { result ≡ is_full coverage }
{
    coverage == Some(FULL_COVERAGE)
}

// What the full pixels of a colour need.
pub fn full_of(mode: RenderMode, combiner: Combiner, color: Rgba) -> Full
    ensures { FullOf mode combiner color result }
{
    let layered = blender::layer::layered(mode, color.a);
    let own = crate::own_colors(mode, combiner, color);
    let layer = blender::layer::layer_of(mode, combiner, color);
    let sure = blender::opaque(mode, color.a);
    let fills = is_full(next_coverage(mode, ALL, None));
    let sets = crate::mark_of(false, fills);
    Full {
        layered,
        own,
        layer,
        sure,
        fills,
        sets,
    }
}
