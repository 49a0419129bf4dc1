// The lent frame: three slices, of colour bytes, coverages and marks (docs/RULES.md, The frame). A colour or coverage byte is read only where its mark
// says that it is known, and written only where it then is.
#![tactic(auto)]

ghost use Rattle.std.specs.Prelude.{◌≡◌, ◌+◌, ◌*◌, ◌<◌, ◌≤◌, length, IfOk, IfSome};
ghost use Rattle.blender.specs.Blend.{or_zero};
ghost use Rattle.frame_pixel.specs.Rules.{coverage_at};
ghost use Rattle.refused.specs.Refused.{refusal_of};
ghost use Rattle.frame.specs.Frame.{pixel_at, frame_of};
ghost use Rattle.frame.specs.Checks.{frame_refusal};
ghost use Rattle.frame.specs.Lent.{old, new, lent, before, after};
ghost use Rattle.frame.specs.Fits.{Long, Accepted, color_at, bytes_at, known_pixel, put_if, stored_at, put_known};
ghost use Rattle.std.specs.Bool.{then_some};
ghost use Rattle.frame.specs.Loads.{Loadable};
ghost use Rattle.frame.specs.Slices.{held};

use blender::Coverage;
use frame_pixel::{Colors, Pixel};
use load::Slices;
use refused::Refusal;

pub mod load; // the loads of colour and coverage bytes
pub mod refusal; // numbers 1 to 3

// A frame to be read, as numbers 1 to 3 let it through. Its slices are private, so that a pixel's bytes are had only as far as they are known; they are three, and not
// one of pixels, as C lends them. They are `Slices` for the reason that load.rt gives.
#[derive(Clone, Copy)]
pub struct Frame<'a> {
    pub width: u32,
    pub height: u32,
    slices: Slices<'a>,
    pub ghost accepted: { Accepted (held slices) width height },
}

impl<'a> Frame<'a> {
    ghost use Rattle.frame.specs.Shown.{seen, Shows};

    // The frame, or the first of numbers 1 to 3 that holds. It takes the slices as a host lends them, since before these numbers nothing says that they are a frame.
    #[tactic(auto, using(crate::proofs::Fits::accepted, crate::proofs::Fits::all_loadable))]
    pub fn new(
        width: u32,
        height: u32,
        colors: &'a [u8],
        coverages: &'a [u8],
        marks: &'a [u8],
    ) -> Result<Frame<'a>, Refusal>
        ensures number { refusal_of result ≡ frame_refusal (frame_of colors.now coverages.now marks.now) width height }
        ensures shows { IfOk result (λ frame. Shows frame width height (frame_of colors.now coverages.now marks.now)) }
    {
        refusal::frame_refusal(colors, coverages, marks, width, height)?;
        Ok(Frame {
            width,
            height,
            slices: Slices::new(colors, coverages, marks),
        })
    }

    // How many pixels it has.
    pub fn pixels(&self) -> usize
        ensures { result ≡ length (seen self.now).marks }
    {
        self.slices.pixels()
    }

    // A pixel's colour bytes, if they are known.
    pub fn color(&self, pixel: usize) -> Option<Colors>
        requires { pixel < length (seen self.now).marks }
        ensures { result ≡ color_at (pixel_at (seen self.now) pixel) }
    {
        self.slices.color(pixel)
    }

    // A pixel's coverage, if it is known.
    pub fn coverage(&self, pixel: usize) -> Coverage
        requires { pixel < length (seen self.now).marks }
        ensures value { result ≡ coverage_at (pixel_at (seen self.now) pixel) }
        ensures low { or_zero result ≤ 7 }
    {
        self.slices.coverage(pixel)
    }

    // A pixel's colour bytes and coverage, if both are known.
    pub fn bytes(&self, pixel: usize) -> Option<(Colors, u8)>
        requires { pixel < length (seen self.now).marks }
        ensures value { result ≡ bytes_at (pixel_at (seen self.now) pixel) }
        ensures low { IfSome result (λ bytes. bytes.1 ≤ 7) }
    {
        self.slices.bytes(pixel)
    }
}

// What stands for a colour that is not known.
pub const UNKNOWN: Colors = Colors {
    red: 0,
    green: 0,
    blue: 0,
};

// The bytes of a pixel as far as they are known. This and `put_pixel` take the slices themselves, as `store` does: the loop of `fill_run` (frame_paint), which stores by it, has no
// struct of them, since through a &mut of one nothing is hoisted.
pub fn known_pixel(colors: &[u8], coverages: &[u8], marks: &[u8], pixel: usize) -> Pixel
    requires { Loadable (frame_of colors.now coverages.now marks.now) pixel }
    ensures { result ≡ known_pixel (pixel_at (frame_of colors.now coverages.now marks.now) pixel) }
{
    let mark = marks[pixel];
    let color = load::known_color(colors, marks, pixel).unwrap_or(UNKNOWN);
    let coverage = load::known_coverage(coverages, marks, pixel);
    Pixel {
        red: color.red,
        green: color.green,
        blue: color.blue,
        coverage: coverage.unwrap_or(0),
        mark,
    }
}

// Stores a byte that is known. The flag stands beside the byte for the reason that `store` gives.
fn put_byte(bytes: &mut [u8], at: usize, known: bool, byte: u8)
    requires { at < length bytes.old }
    ensures { new bytes ≡ put_if known (old bytes) at byte }
{
    if known {
        bytes[at] = byte;
    }
}

// Stores a pixel: its colours if they are known, its coverage if it is given, and its mark. Flags with values beside them: with an Option for each, a run of pixels laid
// over the memory's colour takes up to an eighth longer. `Long` is said in the contract, here and in `put_pixel`, since bare slices have no type to hold it.
pub fn store(
    colors: &mut [u8],
    coverages: &mut [u8],
    marks: &mut [u8],
    pixel: usize,
    known: bool,
    new: Colors,
    covers: bool,
    coverage: u8,
    mark: u8,
)
    requires pixel_in_bounds { pixel < length marks.old }
    requires long { Long (lent colors coverages marks) }
    ensures { after colors coverages marks ≡ stored_at (before colors coverages marks) pixel (then_some known new) (then_some covers coverage) mark }
{
    let at = 3 * pixel;
    put_byte(colors, at, known, new.red);
    put_byte(colors, at + 1, known, new.green);
    put_byte(colors, at + 2, known, new.blue);
    put_byte(coverages, pixel, covers, coverage);
    marks[pixel] = mark;
}

// Stores a pixel's mark, and its bytes where the mark says that they are known.
pub fn put_pixel(
    colors: &mut [u8],
    coverages: &mut [u8],
    marks: &mut [u8],
    pixel: usize,
    bytes: Pixel,
)
    requires pixel_in_bounds { pixel < length marks.old }
    requires long { Long (lent colors coverages marks) }
    ensures { after colors coverages marks ≡ put_known (before colors coverages marks) pixel bytes }
{
    let mark = bytes.mark;
    store(
        colors,
        coverages,
        marks,
        pixel,
        frame_pixel::color_marked(mark),
        bytes.colors(),
        frame_pixel::coverage_marked(mark),
        bytes.coverage,
        mark,
    );
}
