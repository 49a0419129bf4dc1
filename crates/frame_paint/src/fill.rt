// A run of pixels of one colour, each with all its samples: no sample is tested, and what does not turn on the pixel was worked out before.
ghost use Rattle.std.specs.Prelude.{◌≡◌, true, false, ◌||◌, ◌-◌, ◌<◌, ◌≤◌, length, if◌then◌else◌, slice_index};
ghost use Rattle.raster_pixel.specs.Parts.{from};
ghost use Rattle.frame_pixel.specs.Marks.{color_marked, mark_of};
ghost use Rattle.frame_pixel.specs.Coloring.{over_colors};
ghost use Rattle.frame.specs.Lent.{lent, old, before, after};
ghost use Rattle.frame.specs.Fits.{Long, Fit, colors_at, colors_if};
ghost use Rattle.frame.specs.Loads.{ColorThere};
ghost use Rattle.frame_paint.specs.Pixel.{Drew};
ghost use Rattle.frame_paint.specs.Row.{filled_at, full_pixel};

use crate::paint::Paint;
use frame_pixel::Colors;
use frame_pixel::full::{FULL_COVERAGE, Full};

// Whether a full pixel's colour is then known. It is a flag, and the bytes stand apart, for the reason that `store` (frame) gives.
fn full_known(full: Full, mark: u8, covered: bool) -> bool
    ensures { result ≡ (if full.layered then color_marked mark else full.sure || covered) }
{
    if full.layered {
        frame_pixel::color_marked(mark)
    } else {
        full.sure | covered
    }
}

// Its bytes if so. They are bytes and no Option, for the same reason.
fn full_colors(colors: &[u8], marks: &[u8], full: Full, pixel: usize) -> Colors
    requires pixel_in_bounds { pixel < length marks.now }
    requires color_there { ColorThere colors.now marks.now pixel }
    ensures { result ≡ (if full.layered then over_colors full.layer (colors_if (color_marked (slice_index marks.now pixel)) (colors_at colors.now pixel)) else full.own) }
{
    if full.layered {
        let memory = frame::load::known_color(colors, marks, pixel);
        frame_pixel::over_colors(full.layer, memory.unwrap_or(frame::UNKNOWN))
    } else {
        full.own
    }
}

// A full pixel: its bytes where they are known, and 7 where its coverage becomes that. It asks with flags and no Option, as `store` does and for its reason.
fn fill_pixel(colors: &mut [u8], coverages: &mut [u8], marks: &mut [u8], full: Full, pixel: usize)
    requires pixel_in_bounds { pixel < length marks.old }
    requires long { Long (lent colors coverages marks) }
    requires sets_value { full.sets ≡ mark_of false full.fills }
    ensures { after colors coverages marks ≡ filled_at full (before colors coverages marks) pixel }
{
    let mark = marks[pixel];
    let covered = frame_pixel::coverage_marked(mark);
    let known = full_known(full, mark, covered);
    let new = full_colors(colors, marks, full, pixel);
    let after = frame_pixel::mark_of(known, covered) | full.sets;
    frame::store(
        colors,
        coverages,
        marks,
        pixel,
        known,
        new,
        full.fills,
        FULL_COVERAGE,
        after,
    );
}

// A run of pixels from first up to end, each with all its samples. The slices themselves and no target: through a &mut in the loop nothing is hoisted,
// and a run takes more than three times as long. So `Long` and `Fit` stand in these contracts, and in no type.
pub fn fill_run(
    colors: &mut [u8],
    coverages: &mut [u8],
    marks: &mut [u8],
    paint: &Paint,
    first: usize,
    end: usize,
)
    requires run { (first ≤ end) × (end ≤ length marks.old) × (paint.now.even ≡ true) }
    requires fit { Fit (length marks.old) (lent colors coverages marks) }
    ensures { Drew paint.now.mode paint.now.combiner (length (old marks)) (from (full_pixel paint.now.color) first end) (before colors coverages marks) (after colors coverages marks) (end - first) }
{
    let full = paint.full;
    for pixel in first..end {
        fill_pixel(colors, coverages, marks, full, pixel);
    }
}
