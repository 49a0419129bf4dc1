// The C interface's single-pixel calls, over plain values. Crate exports gives them their C names. C has no Option: a flag stands beside a coverage and a
// literal word that may not be there.
#![tactic(auto)]

ghost use Rattle.std.specs.Prelude.{◌≡◌};
ghost use Rattle.writeback_pixel.specs.Calls.{destination_call, color_known_call, blend_call, pack_color_call, supported_call, pixel_bytes_call, encode_call};
ghost use Rattle.c_types.specs.Convert.{mode_of, combiner_from, coverage_of, literal_of, encoding_of, writer_of, bytes_from};
ghost use Rattle.c_answers.specs.Answers.{same, bit, four_bytes, two_bytes, answer_of};

use c_answers::Answer;
use c_types::{Mode, Parts, byte_order, bytes_of_word, image_writer};
use state::Rgba;

// ---- the blender: writeback.rs

pub fn destination(mode: Mode, mask: u8, memory: u8) -> Answer
    ensures { result ≡ answer_of same (destination_call (mode_of mode) mask memory) }
{
    writeback_pixel::destination(mode.into(), mask, memory).into()
}

pub fn color_known(
    mode: Mode,
    alpha: f32,
    mask: u8,
    known: bool,
    coverage: u8,
    memory_rgb: bool,
) -> Answer
    ensures { result ≡ answer_of bit (color_known_call (mode_of mode) alpha mask (coverage_of known coverage) memory_rgb) }
{
    let under = known.then_some(coverage);
    writeback_pixel::color_known(mode.into(), alpha, mask, under, memory_rgb).into()
}

pub fn blend(
    mode: Mode,
    combiner: Parts,
    rgba: Rgba,
    memory: Rgba,
    shade_alpha: f32,
    mask: u8,
    coverage: u8,
) -> Answer
    ensures { result ≡ answer_of four_bytes (blend_call (mode_of mode) (combiner_from combiner) rgba memory shade_alpha mask coverage) }
{
    writeback_pixel::blend(
        mode.into(),
        combiner.into(),
        rgba,
        memory,
        shade_alpha,
        mask,
        coverage,
    )
    .into()
}

// ---- packing: coherence.rs

pub fn pack_color(rgba: u32, coverage: u8, dither: u8) -> Answer
    ensures { result ≡ answer_of same (pack_color_call (bytes_from rgba) coverage dither) }
{
    writeback_pixel::pack_color(bytes_of_word(rgba), coverage, dither).into()
}

pub fn supported(fmt: u8, siz: u8, width: u32, depth: bool) -> Answer
    ensures { result ≡ answer_of bit (supported_call (writer_of fmt siz width depth)) }
{
    writeback_pixel::supported(image_writer(fmt, siz, width, depth)).into()
}

// A size is a usize, which has no word of its own: this one fits, since it is at most 4.
#[tactic(auto, using(crate::proofs::Sizes::size_small))]
pub fn pixel_bytes(fmt: u8, siz: u8, width: u32, depth: bool) -> Answer
    ensures { result ≡ answer_of same (pixel_bytes_call (writer_of fmt siz width depth)) }
{
    let size = writeback_pixel::pixel_bytes(image_writer(fmt, siz, width, depth));
    match size {
        Ok(n) => Answer {
            number: 0,
            value: n as u32,
        },
        Err(why) => Answer::turned_away(why),
    }
}

pub fn encode(
    fmt: u8,
    siz: u8,
    width: u32,
    depth: bool,
    rgba: u32,
    coverage: u8,
    pixel: u32,
    literal: bool,
    word: u32,
    rgb_dither: u8,
    big_endian: bool,
) -> Answer
    ensures { result ≡ answer_of two_bytes (encode_call (writer_of fmt siz width depth) (bytes_from rgba) coverage pixel (literal_of literal word) rgb_dither (encoding_of big_endian)) }
{
    let writer = image_writer(fmt, siz, width, depth);
    let bytes = bytes_of_word(rgba);
    let given = literal.then_some(word);
    let order = byte_order(big_endian);
    writeback_pixel::encode(
        writer,
        bytes,
        coverage,
        pixel as usize,
        given,
        rgb_dither,
        order,
    )
    .into()
}
