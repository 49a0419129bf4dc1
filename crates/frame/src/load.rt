// The loads of colour and coverage bytes. A byte of these two slices is loaded by `color` or by `coverage` and nowhere else. Both ask that the mark of the
// byte's pixel says that it is known: their `marks` are there for that need alone. What is there is said in each contract, and in no
// type but `Slices`, which says as little: slices that are known to be long enough could be loaded unasked.
ghost use Rattle.std.specs.Prelude.{◌≡◌, ◌<◌, ◌≤◌, ◌&&◌, length, Some, None, IfSome, if◌then◌else◌, slice_index};
ghost use Rattle.frame_pixel.specs.Marks.{color_marked, coverage_marked, coverage_of};
ghost use Rattle.frame_pixel.specs.Rules.{coverage_at};
ghost use Rattle.blender.specs.Blend.{or_zero};
ghost use Rattle.frame.specs.Frame.{pixel_at, frame_of};
ghost use Rattle.frame.specs.Loads.{ColorKnown, CoverageKnown, ColorThere, CoverageThere};
ghost use Rattle.frame.specs.Fits.{AllLoadable, colors_at, color_at, bytes_at};

use blender::Coverage;
use frame_pixel::Colors;

// The colour bytes of a pixel whose colour is known.
pub fn color(colors: &[u8], marks: &[u8], pixel: usize) -> Colors
    requires color_known { ColorKnown marks.now pixel }
    requires color_there { ColorThere colors.now marks.now pixel }
    ensures { result ≡ colors_at colors.now pixel }
{
    let red_at = 3 * pixel;
    let green_at = red_at + 1;
    let blue_at = red_at + 2;
    let red = colors[red_at];
    let green = colors[green_at];
    let blue = colors[blue_at];
    Colors { red, green, blue }
}

// The coverage of a pixel whose coverage is known.
pub fn coverage(coverages: &[u8], marks: &[u8], pixel: usize) -> u8
    requires coverage_known { CoverageKnown marks.now pixel }
    requires coverage_there { CoverageThere coverages.now marks.now pixel }
    ensures { result ≡ slice_index coverages.now pixel }
{
    coverages[pixel]
}

// A pixel's colour bytes, if they are known; else none is loaded.
// If and no then: in a closure the load would stand without the test, which is what lets it be made.
pub fn known_color(colors: &[u8], marks: &[u8], pixel: usize) -> Option<Colors>
    requires pixel_in_bounds { pixel < length marks.now }
    requires color_there { ColorThere colors.now marks.now pixel }
    ensures { result ≡ (if color_marked (slice_index marks.now pixel) then Some (colors_at colors.now pixel) else None) }
{
    let mark = marks[pixel];
    let known = frame_pixel::color_marked(mark);
    if known {
        return Some(color(colors, marks, pixel));
    }
    None
}

// A pixel's coverage, if it is known; else it is not loaded.
pub fn known_coverage(coverages: &[u8], marks: &[u8], pixel: usize) -> Coverage
    requires pixel_in_bounds { pixel < length marks.now }
    requires coverage_there { CoverageThere coverages.now marks.now pixel }
    ensures { result ≡ coverage_of (slice_index marks.now pixel) (slice_index coverages.now pixel) }
{
    let mark = marks[pixel];
    let known = frame_pixel::coverage_marked(mark);
    if known {
        return Some(coverage(coverages, marks, pixel));
    }
    None
}

// A pixel's colour bytes and coverage, if both are known; else none is loaded.
pub fn known_bytes(
    colors: &[u8],
    coverages: &[u8],
    marks: &[u8],
    pixel: usize,
) -> Option<(Colors, u8)>
    requires pixel_in_bounds { pixel < length marks.now }
    requires color_there { ColorThere colors.now marks.now pixel }
    requires coverage_there { CoverageThere coverages.now marks.now pixel }
    ensures { result ≡ (if color_marked (slice_index marks.now pixel) && coverage_marked (slice_index marks.now pixel) then Some (colors_at colors.now pixel, slice_index coverages.now pixel) else None) }
{
    let mark = marks[pixel];
    if frame_pixel::color_marked(mark) && frame_pixel::coverage_marked(mark) {
        return Some((
            color(colors, marks, pixel),
            coverage(coverages, marks, pixel),
        ));
    }
    None
}

// The three slices of a frame to be read, of which no more is told than that a pixel's bytes are there where they are known: `Frame`, which knows how long they are,
// has them as this, and so reaches no byte of theirs but by these methods.
#[derive(Clone, Copy)]
pub(crate) struct Slices<'a> {
    colors: &'a [u8],
    coverages: &'a [u8],
    marks: &'a [u8],
    pub ghost loadable: { AllLoadable (frame_of colors.now coverages.now marks.now) },
}

impl<'a> Slices<'a> {
    ghost use Rattle.frame.specs.Slices.{held};

    pub(crate) fn new(colors: &'a [u8], coverages: &'a [u8], marks: &'a [u8]) -> Slices<'a>
        requires { AllLoadable (frame_of colors.now coverages.now marks.now) }
        ensures { held result ≡ frame_of colors.now coverages.now marks.now }
    {
        Slices {
            colors,
            coverages,
            marks,
        }
    }

    // How many pixels they are of.
    pub(crate) fn pixels(&self) -> usize
        ensures { result ≡ length (held self.now).marks }
    {
        self.marks.len()
    }

    // A pixel's colour bytes, if they are known.
    pub(crate) fn color(&self, pixel: usize) -> Option<Colors>
        requires { pixel < length (held self.now).marks }
        ensures { result ≡ color_at (pixel_at (held self.now) pixel) }
    {
        known_color(self.colors, self.marks, pixel)
    }

    // A pixel's coverage, if it is known.
    pub(crate) fn coverage(&self, pixel: usize) -> Coverage
        requires { pixel < length (held self.now).marks }
        ensures value { result ≡ coverage_at (pixel_at (held self.now) pixel) }
        ensures low { or_zero result ≤ 7 }
    {
        known_coverage(self.coverages, self.marks, pixel)
    }

    // A pixel's colour bytes and coverage, if both are known. One test of the mark: with two, a run of words over marks of noise takes 1.4 times as long.
    pub(crate) fn bytes(&self, pixel: usize) -> Option<(Colors, u8)>
        requires { pixel < length (held self.now).marks }
        ensures value { result ≡ bytes_at (pixel_at (held self.now) pixel) }
        ensures low { IfSome result (λ bytes. bytes.1 ≤ 7) }
    {
        known_bytes(self.colors, self.coverages, self.marks, pixel)
    }
}
