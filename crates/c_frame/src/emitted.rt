// The C interface of the emitted pixels of a draw: one by its place, and a run of them into two lent slices. The frame stays three slices with its sizes here too, as C lends it.
ghost use Rattle.std.specs.Prelude.{◌≡◌, List, ℕ};
ghost use Rattle.frame.specs.Frame.{frame_of};
ghost use Rattle.frame.specs.Lent.{old, new};
ghost use Rattle.frame_draw.specs.Draw.{draw_of};
ghost use Rattle.frame_emitted.specs.Emitted.{pixel_means, emitted_answer};
ghost use Rattle.frame_emitted.specs.Run.{pixels_means, emitted_run};
ghost use Rattle.c_frame.specs.Frames.{pixel_answer, listed_answer};

use crate::engine_of;
use frame_draw::DrawCall;
use frame_emitted::{Emitted, Listed};
use refused::Refusal;

// The number (docs/RULES.md), and an emitted pixel with its mask, zeros where there is none, as C has no Option and no Result.
#[repr(C)]
#[derive(Clone, Copy)]
pub struct EmittedAnswer {
    pub number: u32,
    pub pixel: u32,
    pub mask: u32,
}

impl From<Result<Option<Emitted>, Refusal>> for EmittedAnswer {
    ghost from_gives = { λ answer r. r ≡ pixel_answer (pixel_means answer) };

    fn from(answer: Result<Option<Emitted>, Refusal>) -> EmittedAnswer {
        match answer {
            Ok(Some(emitted)) => EmittedAnswer {
                number: 0,
                pixel: emitted.pixel,
                mask: emitted.mask as u32,
            },
            Ok(None) => EmittedAnswer {
                number: 0,
                pixel: 0,
                mask: 0,
            },
            Err(refusal) => EmittedAnswer {
                number: refusal.number() as u32,
                pixel: 0,
                mask: 0,
            },
        }
    }
}

// The run's number, how many slots have a pixel, and how many pixels the draw emits, as C has no Option and no Result.
#[repr(C)]
#[derive(Clone, Copy)]
pub struct ListedAnswer {
    pub number: u32,
    pub listed: u64,
    pub emitted: u64,
}

impl From<Result<Listed, Refusal>> for ListedAnswer {
    ghost from_gives = { λ answer r. (pixels masks : List ℕ) → r ≡ listed_answer (pixels_means answer pixels masks) };

    fn from(answer: Result<Listed, Refusal>) -> ListedAnswer {
        match answer {
            Ok(Listed { listed, emitted }) => ListedAnswer {
                number: 0,
                listed,
                emitted,
            },
            Err(refusal) => ListedAnswer {
                number: refusal.number() as u32,
                listed: 0,
                emitted: 0,
            },
        }
    }
}

pub fn emitted_pixel(
    engine: u8,
    width: u32,
    height: u32,
    colors: &[u8],
    coverages: &[u8],
    marks: &[u8],
    draw: &DrawCall,
    k: u64,
) -> EmittedAnswer
    ensures { result ≡ pixel_answer (emitted_answer (draw_of draw.now) width height (frame_of colors.now coverages.now marks.now) k) }
{
    let answer = frame_emitted::emitted_pixel(
        engine_of(engine),
        width,
        height,
        colors,
        coverages,
        marks,
        draw,
        k,
    );
    EmittedAnswer::from(answer)
}

pub fn emitted_pixels(
    engine: u8,
    width: u32,
    height: u32,
    colors: &[u8],
    coverages: &[u8],
    marks: &[u8],
    draw: &DrawCall,
    first: u64,
    pixels: &mut [u32],
    masks: &mut [u8],
) -> ListedAnswer
    ensures answer { let d = draw_of draw.now in
        result ≡ listed_answer (emitted_run d width height (frame_of colors.now coverages.now marks.now) first (old pixels) (old masks)) }
    ensures pixels { let d = draw_of draw.now in
        new pixels ≡ (emitted_run d width height (frame_of colors.now coverages.now marks.now) first (old pixels) (old masks)).pixels }
    ensures masks { let d = draw_of draw.now in
        new masks ≡ (emitted_run d width height (frame_of colors.now coverages.now marks.now) first (old pixels) (old masks)).masks }
{
    let answer = frame_emitted::emitted_pixels(
        engine_of(engine),
        width,
        height,
        colors,
        coverages,
        marks,
        draw,
        first,
        pixels,
        masks,
    );
    ListedAnswer::from(answer)
}
