// The pixels that a draw would emit, by number and sample mask: one by its place in the draw, or a run of them. The frame is lent to be read only, for numbers 1 to 3;
// nothing is drawn. The frame and the slots come as the slices that a host lends: before the numbers nothing says what they are.
#![tactic(auto)]

ghost use Rattle.std.specs.Prelude.{◌≡◌, ◌≤◌, length, Ok, slice_index_or};
ghost use Rattle.raster_emitted.specs.Listed.{ListedIn};
ghost use Rattle.raster_emitted.specs.Shapes.{masks_as};
ghost use Rattle.raster_emitted.specs.Masked.{no_pixel};
ghost use Rattle.frame.specs.Frame.{frame_of};
ghost use Rattle.frame.specs.Lent.{old, new};
ghost use Rattle.frame_draw.specs.Draw.{draw_of};
ghost use Rattle.frame_emitted.specs.Emitted.{pixel_means, pixel_of, emitted_answer, NumberedPixel};
ghost use Rattle.frame_emitted.specs.Run.{pixels_means, emitted_run, NumberedPixels};
ghost use Rattle.frame_emitted.specs.Places.{FoundAt};

use frame_draw::{AcceptedDraw, DrawCall, Engine};
use raster_emitted::Slots;
use refused::Refusal;

// An emitted pixel and its mask.
#[derive(Clone, Copy, Debug, PartialEq, Eq)]
pub struct Emitted {
    pub pixel: u32,
    pub mask: u8,
}

// How many slots have a pixel, and how many pixels the draw emits.
#[derive(Clone, Copy, Debug, PartialEq, Eq)]
pub struct Listed {
    pub listed: u64,
    pub emitted: u64,
}

// The pixels of an accepted draw: they are counted up to the slots' limit, and those that are asked for go to their slots.
fn list_by(engine: Engine, slots: &mut Slots, draw: &AcceptedDraw)
    ensures { ListedIn (masks_as slots.old.view draw.now.shapes) slots.old slots.new }
{
    // The host chooses at run time, and two calls are the plainest choice of two.
    match engine {
        Engine::Fast => raster_emitted::list_pixels(slots, &draw.shapes),
        Engine::Slow => rasterize_slow::list_pixels(slots, &draw.shapes),
    }
}

// Pixel k of an accepted draw, in a slot of its own, if the draw emits as many. Slots are slices, so that the slot is two arrays of one element.
fn pixel_at(engine: Engine, k: u64, draw: &AcceptedDraw) -> Option<Emitted>
    ensures result_value { pixel_means (Ok result) ≡ pixel_of (slice_index_or (masks_as draw.now.view draw.now.shapes) k no_pixel) }
    ensures found_at { FoundAt (masks_as draw.now.view draw.now.shapes) k result }
{
    let mut pixels = [0u32; 1];
    let mut masks = [0u8; 1];
    let mut slots = Slots {
        view: draw.view,
        first: k,
        limit: k.saturating_add(1),
        count: 0,
        pixels: &mut pixels,
        masks: &mut masks,
    };
    list_by(engine, &mut slots, draw);
    if slots.count <= k {
        return None;
    }
    Some(Emitted {
        pixel: slots.pixels[0],
        mask: slots.masks[0],
    })
}

// The k-th pixel that a draw emits, from 0, and its mask: numbers 1 to 7 are asked as `draw` asks them. Nothing that is lent is written.
pub fn emitted_pixel(
    engine: Engine,
    width: u32,
    height: u32,
    colors: &[u8],
    coverages: &[u8],
    marks: &[u8],
    draw: &DrawCall,
    k: u64,
) -> Result<Option<Emitted>, Refusal>
    ensures answer { pixel_means result ≡ emitted_answer (draw_of draw.now) width height (frame_of colors.now coverages.now marks.now) k }
    ensures number { NumberedPixel result }
{
    let accepted = frame_draw::accept(width, height, colors, coverages, marks, draw)?;
    Ok(pixel_at(engine, k, &accepted))
}

// The pixels that a draw emits, from the first-th on, as many as there are slots: slot i has what the single call answers for first + i. Its own refusal, 20, is
// for slices that have not one length. Turned away, it writes nothing.
pub fn emitted_pixels(
    engine: Engine,
    width: u32,
    height: u32,
    colors: &[u8],
    coverages: &[u8],
    marks: &[u8],
    draw: &DrawCall,
    first: u64,
    pixels: &mut [u32],
    masks: &mut [u8],
) -> Result<Listed, Refusal>
    ensures answer { let d = draw_of draw.now in
        pixels_means result (new pixels) (new masks) ≡ emitted_run d width height (frame_of colors.now coverages.now marks.now) first (old pixels) (old masks) }
    ensures number { NumberedPixels result }
{
    let accepted = frame_draw::accept(width, height, colors, coverages, marks, draw)?;
    if pixels.len() != masks.len() {
        return Err(Refusal::Slots);
    }
    let mut slots = Slots {
        view: accepted.view,
        first,
        // all are counted: the largest count is more than a draw emits
        limit: u64::MAX,
        count: 0,
        pixels,
        masks,
    };
    list_by(engine, &mut slots, &accepted);
    slots.clear();
    Ok(Listed {
        listed: slots.reached() as u64,
        emitted: slots.count,
    })
}
