// One emitted pixel on the frame: F1 to F5 on what is known of it.
ghost use Rattle.std.specs.Prelude.{◌≡◌, ◌<◌, ◌≤◌, length, Some};
ghost use Rattle.raster_pixel.specs.Emitted.{emits};
ghost use Rattle.frame_paint.specs.Pixel.{DrewOn, fragment_source};
ghost use Rattle.frame_paint.specs.Paint.{Own};

use crate::Target;
use crate::paint::coloring_of;
use blender::Source;
use combiner::Combiner;
use frame_pixel::Colors;
use raster_pixel::Fragment;
use state::RenderMode;

// What the rules look at of an emitted pixel. That its mask is not 0 is a clause, here, below and in rasterize_slow's sinks, since the definitions to be believed build a Fragment
// of any mask.
#[tactic(auto, using(num_bits::proofs::Masks::ones_range))]
pub fn fragment_source(fragment: Fragment) -> Source
    requires { 0 < fragment.mask }
    ensures value { result ≡ fragment_source fragment }
    ensures samples { (1 ≤ result.count) × (result.count ≤ 8) }
{
    Source {
        color: fragment.color,
        shade_alpha: fragment.shade_alpha,
        count: num_bits::ones(fragment.mask),
    }
}

// F1 to F5 at a pixel's place. What is known ahead of it is asked after the bytes are read: so it goes through no memory. The function takes three parts of a paint and no Paint,
// since it asks nothing else of one. They are references, since by value a pixel that is blended takes a twentieth longer.
pub fn draw_pixel(
    target: &mut Target,
    mode: &RenderMode,
    combiner: &Combiner,
    own: &Option<Colors>,
    fragment: Fragment,
    pixel: usize,
)
    requires mask_nonzero { 0 < fragment.mask }
    requires pixel_in_bounds { pixel < length target.old.marks.now }
    requires own { Own mode.now combiner.now own.now }
    ensures { DrewOn mode.now combiner.now (emits (Some fragment) pixel) target.old target.new 1 }
{
    let before = target.known_pixel(pixel);
    let coloring = coloring_of(mode, combiner, own, fragment.color);
    let after = frame_pixel::step(
        *mode,
        *combiner,
        fragment_source(fragment),
        coloring,
        before,
    );
    target.put_pixel(pixel, after);
}
