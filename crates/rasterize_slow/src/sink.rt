// Where the pixels of a draw go, one after the other: to a frame or to slots.
ghost use Rattle.std.specs.Prelude.{◌≡◌, ◌*◌, ◌<◌, ◌++◌, [], List, length, map, Some};
ghost use Rattle.raster_pixel.specs.declared.shapes.Shapes.{Shapes};
ghost use Rattle.raster_pixel.specs.declared.view.View.{View};
ghost use Rattle.raster_pixel.specs.Emitted.{Emit, emits};
ghost use Rattle.frame_paint.specs.Pixel.{DrewOn};
ghost use Rattle.raster_emitted.specs.Masked.{masked_of};
ghost use Rattle.raster_emitted.specs.Listed.{ListedIn};
ghost use Rattle.rasterize_slow.specs.Laws.{drew_none, drew_then, listed_nothing, listed_both};

use frame_paint::Target;
use frame_paint::pixels::fragment_source;
use raster_emitted::Slots;
use raster_pixel::{Fragment, Shapes, View};

pub trait Sink {
    // the frame's size and the scissor
    ghost view: { Self → View };

    // what pixels that a draw emits do to it, one after the other
    ghost took: { Shapes → List Emit → Self → Self → Type 0 };

    fn view(&self) -> View
        ensures { result ≡ view self.now };

    fn emit(&mut self, shapes: &Shapes, fragment: Fragment, pixel: u32)
        requires sample { 0 < fragment.mask }
        requires place { pixel < (view self.old).width * (view self.old).height }
        ensures { took shapes.now (emits (Some fragment) pixel) self.old self.new };

    // no pixels do nothing
    ghost took_none: { (d : Shapes) (s : Self) → took d [] s s };

    // those of two lists in turn do what they do as one list
    ghost took_then: { (d : Shapes) (es fs : List Emit) (s t u : Self) → took d es s t → took d fs t u → took d (es ++ fs) s u };

    // and the view stays
    ghost same_view: { (d : Shapes) (es : List Emit) (s t : Self) → took d es s t → view t ≡ view s };
}

// Rules F1 to F5 at each pixel's place.
impl Sink for Target<'_> {
    ghost view = { λ t. t.view };

    ghost took = { λ d es s t. DrewOn d.mode d.combiner es s t (length es) };

    fn view(&self) -> View {
        self.view
    }

    fn emit(&mut self, shapes: &Shapes, fragment: Fragment, pixel: u32) {
        let before = self.known_pixel(pixel as usize);
        let source = fragment_source(fragment);
        let after = frame_pixel::rules(shapes.mode, shapes.combiner, source, before);
        self.put_pixel(pixel as usize, after);
    }

    ghost took_none = { drew_none };

    ghost took_then = { drew_then };

    ghost same_view = { λ d es s t e. e.same.view };
}

// Those that are asked for are in their slots, and all are counted.
impl Sink for Slots<'_> {
    ghost view = { λ s. s.view };

    ghost took = { λ d es s t. ListedIn (map masked_of es) s t };

    fn view(&self) -> View {
        self.view
    }

    fn emit(&mut self, shapes: &Shapes, fragment: Fragment, pixel: u32) {
        // a run of one pixel
        self.list_run(pixel, fragment.mask, 1);
    }

    ghost took_none = { listed_nothing };

    ghost took_then = { listed_both };

    ghost same_view = { λ d es s t e. e.view };
}
