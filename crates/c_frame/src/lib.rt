// The C interface of the frame: what a draw is by C's values, and a draw, its emitted pixels, a word read and a run of words over three lent slices of colour bytes, coverages and
// marks. Crate exports gives the calls their C names.
#![tactic(auto)]

ghost use Rattle.std.specs.Prelude.{◌≡◌, []};
ghost use Rattle.frame.specs.Frame.{frame_of};
ghost use Rattle.frame.specs.Lent.{old, new, before, after};
ghost use Rattle.frame_draw.specs.Draw.{draw_of, drawn_means, draw_answer, draw_frame};
ghost use Rattle.words_read.specs.Read.{read_answer};
ghost use Rattle.words_run.specs.Run.{run_means, run_answer};
ghost use Rattle.c_frame.specs.Engines.{engine_of, format_from};
ghost use Rattle.c_frame.specs.Frames.{draw_from, read_from, drawn_answer, word_answer, ran_answer};

use c_answers::Answer;
use c_draw::GeometryParts;
use c_types::{Mode, byte_order};
use frame_draw::{DrawCall, Engine};
use raster_pixel::{Geometry, Lists, Scissor};
use refused::Refusal;
use state::{CombinerUniform, RenderMode};
use words_read::Format;

pub mod emitted; // the emitted pixels of a draw

// 0 is the fast engine, and every other number the slow one, since C may pass any: a rule of this interface alone, and no From of Engine's own crate.
pub fn engine_of(number: u8) -> Engine
    ensures { result ≡ engine_of number }
{
    match number {
        0 => Engine::Fast,
        _ => Engine::Slow,
    }
}

// The number (docs/RULES.md) and the count of pixels emitted, with repeats, as C has no Option and no Result.
#[repr(C)]
#[derive(Clone, Copy)]
pub struct DrawnAnswer {
    pub number: u32,
    pub pixels: u64,
}

impl From<Result<u64, Refusal>> for DrawnAnswer {
    ghost from_gives = { λ answer r. r ≡ drawn_answer (drawn_means answer) };

    fn from(answer: Result<u64, Refusal>) -> DrawnAnswer {
        match answer {
            Ok(pixels) => DrawnAnswer { number: 0, pixels },
            Err(refusal) => DrawnAnswer {
                number: refusal.number() as u32,
                pixels: 0,
            },
        }
    }
}

// The run's own number and how many words it read, as C has no Option and no Result. It differs from DrawnAnswer in names only: those are C's.
#[repr(C)]
#[derive(Clone, Copy)]
pub struct RanAnswer {
    pub number: u32,
    pub words: u64,
}

impl From<Result<u64, Refusal>> for RanAnswer {
    ghost from_gives = { λ answer r. r ≡ ran_answer (run_means answer [] []) };

    fn from(answer: Result<u64, Refusal>) -> RanAnswer {
        match answer {
            Ok(words) => RanAnswer { number: 0, words },
            Err(refusal) => RanAnswer {
                number: refusal.number() as u32,
                words: 0,
            },
        }
    }
}

// The draw that C's values ask for: they come one by one, as C passes them.
pub fn draw_call<'a>(
    mode: Mode,
    uniform: CombinerUniform,
    cull: bool,
    scissor: Scissor,
    geometry: GeometryParts,
    vertices: &'a [f32],
    present: &'a [u8],
    indices: &'a [u32],
) -> DrawCall<'a>
    ensures { draw_of result ≡ draw_from mode uniform cull scissor geometry vertices present indices }
{
    DrawCall {
        mode: RenderMode::from(mode),
        uniform,
        cull,
        scissor,
        geometry: Geometry::from(geometry),
        lists: Lists {
            vertices,
            present,
            indices,
        },
    }
}

// A frame stays three slices with its sizes in these calls: C lends it so, and the library's calls take it so.
pub fn draw(
    engine: u8,
    width: u32,
    height: u32,
    colors: &mut [u8],
    coverages: &mut [u8],
    marks: &mut [u8],
    draw: &DrawCall,
) -> DrawnAnswer
    ensures answer { result ≡ drawn_answer (draw_answer (draw_of draw.now) width height (before colors coverages marks)) }
    ensures frame { after colors coverages marks ≡ draw_frame (draw_of draw.now) width height (before colors coverages marks) }
{
    let answer = frame_draw::draw(
        engine_of(engine),
        width,
        height,
        colors,
        coverages,
        marks,
        draw,
    );
    DrawnAnswer::from(answer)
}

// How C asks for words to be written: by four values, of which no From could be made.
fn format_from(fmt: u8, siz: u8, rgb_dither: u8, big_endian: bool) -> Format
    ensures { result ≡ format_from fmt siz rgb_dither big_endian }
{
    Format {
        fmt,
        siz,
        rgb_dither,
        encoding: byte_order(big_endian),
    }
}

pub fn read_word(
    width: u32,
    height: u32,
    colors: &[u8],
    coverages: &[u8],
    marks: &[u8],
    pixel: usize,
    fmt: u8,
    siz: u8,
    rgb_dither: u8,
    big_endian: bool,
) -> Answer
    ensures { result ≡ word_answer (read_answer (read_from pixel fmt siz rgb_dither big_endian) width height (frame_of colors.now coverages.now marks.now)) }
{
    let format = format_from(fmt, siz, rgb_dither, big_endian);
    let answer = words_read::read_word(width, height, colors, coverages, marks, pixel, format);
    Answer::from(answer)
}

pub fn read_words(
    width: u32,
    height: u32,
    colors: &[u8],
    coverages: &[u8],
    marks: &[u8],
    first: usize,
    fmt: u8,
    siz: u8,
    rgb_dither: u8,
    big_endian: bool,
    words: &mut [u8],
    numbers: &mut [u8],
) -> RanAnswer
    ensures answer { result ≡ ran_answer (run_answer (read_from first fmt siz rgb_dither big_endian) width height (frame_of colors.now coverages.now marks.now) (old words) (old numbers)) }
    ensures words { new words ≡ (run_answer (read_from first fmt siz rgb_dither big_endian) width height (frame_of colors.now coverages.now marks.now) (old words) (old numbers)).words }
    ensures numbers { new numbers ≡ (run_answer (read_from first fmt siz rgb_dither big_endian) width height (frame_of colors.now coverages.now marks.now) (old words) (old numbers)).numbers }
{
    let format = format_from(fmt, siz, rgb_dither, big_endian);
    let answer = words_run::read_words(
        width, height, colors, coverages, marks, first, format, words, numbers,
    );
    RanAnswer::from(answer)
}
