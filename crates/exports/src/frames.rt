// The C interface of the frame: a draw, its emitted pixels, a word read and a run of words over three lent slices of colour bytes, coverages and marks. Frame and
// draw come as slices and numbers one by one, since C lends them so.
ghost use Rattle.std.specs.Prelude.{◌≡◌};
ghost use Rattle.frame.specs.Frame.{frame_of};
ghost use Rattle.frame.specs.Lent.{old, new, before, after};
ghost use Rattle.frame_draw.specs.Draw.{draw_answer, draw_frame};
ghost use Rattle.words_read.specs.Read.{read_answer};
ghost use Rattle.words_run.specs.Run.{run_answer};
ghost use Rattle.frame_emitted.specs.Emitted.{emitted_answer};
ghost use Rattle.frame_emitted.specs.Run.{emitted_run};
ghost use Rattle.c_frame.specs.Frames.{draw_from, read_from, drawn_answer, pixel_answer, listed_answer, word_answer, ran_answer};

use c_answers::Answer;
use c_draw::GeometryParts;
use c_frame::emitted::{EmittedAnswer, ListedAnswer};
use c_frame::{DrawnAnswer, RanAnswer};
use c_types::Mode;
use raster_pixel::Scissor;
use state::CombinerUniform;

#[unsafe(no_mangle)]
pub extern "C" fn wb_draw(
    engine: u8,
    width: u32,
    height: u32,
    colors: &mut [u8],
    coverages: &mut [u8],
    marks: &mut [u8],
    mode: Mode,
    uniform: CombinerUniform,
    cull: bool,
    scissor: Scissor,
    geometry: GeometryParts,
    vertices: &[f32],
    present: &[u8],
    indices: &[u32],
) -> DrawnAnswer
    ensures answer { result ≡ drawn_answer (draw_answer (draw_from mode uniform cull scissor geometry vertices present indices) width height (before colors coverages marks)) }
    ensures frame { after colors coverages marks ≡ draw_frame (draw_from mode uniform cull scissor geometry vertices present indices) width height (before colors coverages marks) }
{
    let draw = c_frame::draw_call(
        mode, uniform, cull, scissor, geometry, vertices, present, indices,
    );
    c_frame::draw(engine, width, height, colors, coverages, marks, &draw)
}

#[unsafe(no_mangle)]
pub extern "C" fn wb_emitted_pixel(
    engine: u8,
    width: u32,
    height: u32,
    colors: &[u8],
    coverages: &[u8],
    marks: &[u8],
    mode: Mode,
    uniform: CombinerUniform,
    cull: bool,
    scissor: Scissor,
    geometry: GeometryParts,
    vertices: &[f32],
    present: &[u8],
    indices: &[u32],
    k: u64,
) -> EmittedAnswer
    ensures { result ≡ pixel_answer (emitted_answer (draw_from mode uniform cull scissor geometry vertices present indices) width height (frame_of colors.now coverages.now marks.now) k) }
{
    let draw = c_frame::draw_call(
        mode, uniform, cull, scissor, geometry, vertices, present, indices,
    );
    c_frame::emitted::emitted_pixel(engine, width, height, colors, coverages, marks, &draw, k)
}

#[unsafe(no_mangle)]
pub extern "C" fn wb_emitted_pixels(
    engine: u8,
    width: u32,
    height: u32,
    colors: &[u8],
    coverages: &[u8],
    marks: &[u8],
    mode: Mode,
    uniform: CombinerUniform,
    cull: bool,
    scissor: Scissor,
    geometry: GeometryParts,
    vertices: &[f32],
    present: &[u8],
    indices: &[u32],
    first: u64,
    pixels: &mut [u32],
    masks: &mut [u8],
) -> ListedAnswer
    ensures answer { let d = draw_from mode uniform cull scissor geometry vertices present indices in
        result ≡ listed_answer (emitted_run d width height (frame_of colors.now coverages.now marks.now) first (old pixels) (old masks)) }
    ensures pixels { let d = draw_from mode uniform cull scissor geometry vertices present indices in
        new pixels ≡ (emitted_run d width height (frame_of colors.now coverages.now marks.now) first (old pixels) (old masks)).pixels }
    ensures masks { let d = draw_from mode uniform cull scissor geometry vertices present indices in
        new masks ≡ (emitted_run d width height (frame_of colors.now coverages.now marks.now) first (old pixels) (old masks)).masks }
{
    let draw = c_frame::draw_call(
        mode, uniform, cull, scissor, geometry, vertices, present, indices,
    );
    c_frame::emitted::emitted_pixels(
        engine, width, height, colors, coverages, marks, &draw, first, pixels, masks,
    )
}

#[unsafe(no_mangle)]
pub extern "C" fn wb_read_word(
    width: u32,
    height: u32,
    colors: &[u8],
    coverages: &[u8],
    marks: &[u8],
    pixel: usize,
    fmt: u8,
    siz: u8,
    rgb_dither: u8,
    big_endian: bool,
) -> Answer
    ensures { result ≡ word_answer (read_answer (read_from pixel fmt siz rgb_dither big_endian) width height (frame_of colors.now coverages.now marks.now)) }
{
    c_frame::read_word(
        width, height, colors, coverages, marks, pixel, fmt, siz, rgb_dither, big_endian,
    )
}

#[unsafe(no_mangle)]
pub extern "C" fn wb_read_words(
    width: u32,
    height: u32,
    colors: &[u8],
    coverages: &[u8],
    marks: &[u8],
    first: usize,
    fmt: u8,
    siz: u8,
    rgb_dither: u8,
    big_endian: bool,
    words: &mut [u8],
    numbers: &mut [u8],
) -> RanAnswer
    ensures answer { result ≡ ran_answer (run_answer (read_from first fmt siz rgb_dither big_endian) width height (frame_of colors.now coverages.now marks.now) (old words) (old numbers)) }
    ensures words { new words ≡ (run_answer (read_from first fmt siz rgb_dither big_endian) width height (frame_of colors.now coverages.now marks.now) (old words) (old numbers)).words }
    ensures numbers { new numbers ≡ (run_answer (read_from first fmt siz rgb_dither big_endian) width height (frame_of colors.now coverages.now marks.now) (old words) (old numbers)).numbers }
{
    c_frame::read_words(
        width, height, colors, coverages, marks, first, fmt, siz, rgb_dither, big_endian, words,
        numbers,
    )
}
