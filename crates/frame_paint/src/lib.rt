// Emitted pixels on the lent frame (docs/RULES.md, Rules F1 to F5). Every pixel of a draw goes one way: a row (rows) draws it by itself (pixels), or, where it lies in a
// run of full pixels of one colour, with its run (fill).
#![tactic(auto)]

ghost use Rattle.std.specs.Prelude.{◌≡◌, true, ◌*◌, ◌<◌, ◌≤◌, length};
ghost use Rattle.frame.specs.Checks.{mark_ok};
ghost use Rattle.frame.specs.Frame.{frame_of, pixel_at};
ghost use Rattle.frame.specs.Fits.{Fit, known_pixel, put_known};

use frame_pixel::Pixel;
use raster_pixel::View;

pub mod paint; // what does not turn on the pixel
pub mod pixels; // one emitted pixel
pub mod fill; // a run of full pixels
pub mod rows; // a row of a triangle or of a rectangle

// The frame that a draw is carried out on: one that numbers 1 to 3 let through, with room for the view's pixels. Its slices are three, and not one of pixels, as C lends them.
#[derive(Drop)]
pub struct Target<'a> {
    pub view: View,
    pub colors: &'a mut [u8],
    pub coverages: &'a mut [u8],
    pub marks: &'a mut [u8],
    pub ghost fit: { Fit (length marks.now) (frame_of colors.now coverages.now marks.now) },
    pub ghost room: { view.width * view.height ≤ length marks.now },
}

impl Target<'_> {
    ghost use Rattle.frame_paint.specs.Target.{seen, SameLoans};

    // The bytes of a pixel as far as they are known.
    pub fn known_pixel(&self, pixel: usize) -> Pixel
        requires { pixel < length self.now.marks.now }
        ensures { result ≡ known_pixel (pixel_at (seen self.now) pixel) }
    {
        frame::known_pixel(self.colors, self.coverages, self.marks, pixel)
    }

    // Stores a pixel's mark, and its bytes where the mark says that they are known.
    pub fn put_pixel(&mut self, pixel: usize, bytes: Pixel)
        requires pixel_in_bounds { pixel < length self.old.marks.now }
        requires mark_ok { mark_ok bytes.mark bytes.coverage ≡ true }
        ensures stored { seen self.new ≡ put_known (seen self.old) pixel bytes }
        ensures same { SameLoans self.old self.new }
    {
        frame::put_pixel(self.colors, self.coverages, self.marks, pixel, bytes);
    }
}
