// The C interface: every function that the static library has, by its C name. Each takes plain values, is total, and is one call of a function below that has the same
// contract, over the lists or the draw that the values make; a static library has only the exported functions of the crate that it is built from. include/writeback.h declares
// the same for C. A flag with a value beside it stands for an Option, which C has not.
#![tactic(auto)]

ghost use Rattle.std.specs.Prelude.{◌≡◌, ◌&&◌};
ghost use Rattle.num_float.specs.Color.{clamped, is_finite, total_le};
ghost use Rattle.num_float.specs.Whole.{whole, floor, ceil, index_cap, byte_of, quarter_of};
ghost use Rattle.combiner_inputs.specs.Combine.{select, color_a, color_b, color_c, color_d, alpha_abd, alpha_c, combine_of};
ghost use Rattle.combiner.specs.Means.{new_call, color_call, strict_call};
ghost use Rattle.combiner_inputs.specs.Inputs.{color_number, alpha_number};
ghost use Rattle.words_pack.specs.Depth.{pack_depth_of};
ghost use Rattle.writeback_pixel.specs.Calls.{destination_call, color_known_call, blend_call, pack_color_call, supported_call, pixel_bytes_call, encode_call};
ghost use Rattle.raster_vertex.specs.Range.{in_range_x, in_range_y};
ghost use Rattle.raster_pixel.specs.Admitted.{admitted_of};
ghost use Rattle.c_types.specs.Convert.{mode_of, combiner_from, selectors_of, coverage_of, literal_of, encoding_of, writer_of, bytes_from};
ghost use Rattle.c_answers.specs.Answers.{same, bit, four_bytes, two_bytes, answer_of, strict_answer, color_answer, combiner_answer};
ghost use Rattle.c_draw.specs.Draws.{geometry_from, emitted_from, fragment_answer};

use c_answers::{Answer, ColorAnswer, CombinerAnswer, StrictAnswer};
use c_draw::{FragmentAnswer, GeometryParts};
use c_types::{Mode, Parts, Selectors};
use combiner_inputs::{AlphaIn, ColorIn};
use raster_pixel::Lists;
use state::{CombinerUniform, Rgba};

mod frames; // a draw, its emitted pixels, a word read and a run of words

// ---- selectors: combiner.rs

#[unsafe(no_mangle)]
pub extern "C" fn wb_color_a(index: u32) -> u32
    ensures { result ≡ color_number (select color_a ColorIn.Zero 4 index) }
{
    c_numbers::color_a(index)
}

#[unsafe(no_mangle)]
pub extern "C" fn wb_color_b(index: u32) -> u32
    ensures { result ≡ color_number (select color_b ColorIn.Zero 4 index) }
{
    c_numbers::color_b(index)
}

#[unsafe(no_mangle)]
pub extern "C" fn wb_color_c(index: u32) -> u32
    ensures { result ≡ color_number (select color_c ColorIn.Zero 5 index) }
{
    c_numbers::color_c(index)
}

#[unsafe(no_mangle)]
pub extern "C" fn wb_color_d(index: u32) -> u32
    ensures { result ≡ color_number (select color_d ColorIn.Zero 3 index) }
{
    c_numbers::color_d(index)
}

#[unsafe(no_mangle)]
pub extern "C" fn wb_alpha_abd(index: u32) -> u32
    ensures { result ≡ alpha_number (select alpha_abd AlphaIn.Zero 3 index) }
{
    c_numbers::alpha_abd(index)
}

#[unsafe(no_mangle)]
pub extern "C" fn wb_alpha_c(index: u32) -> u32
    ensures { result ≡ alpha_number (select alpha_c AlphaIn.Zero 3 index) }
{
    c_numbers::alpha_c(index)
}

#[unsafe(no_mangle)]
pub extern "C" fn wb_decode_combine(w0: u32, w1: u32) -> Selectors
    ensures { result ≡ selectors_of (combine_of w0 w1) }
{
    c_numbers::decode_combine(w0, w1)
}

// ---- floats to whole numbers

#[unsafe(no_mangle)]
pub extern "C" fn wb_clamp(x: f32) -> f32
    ensures { result ≡ clamped x }
{
    num_float::clamp01(x)
}

#[unsafe(no_mangle)]
pub extern "C" fn wb_byte_of(x: f32) -> u8
    ensures { result ≡ byte_of x }
{
    num_float::byte_of(x)
}

#[unsafe(no_mangle)]
pub extern "C" fn wb_quarter(x: f32) -> i64
    ensures { result ≡ quarter_of x }
{
    num_float::quarter(x)
}

#[unsafe(no_mangle)]
pub extern "C" fn wb_floor_index(x: f32) -> u32
    ensures { result ≡ whole floor index_cap x }
{
    c_numbers::floor_index(x)
}

#[unsafe(no_mangle)]
pub extern "C" fn wb_ceil_index(x: f32) -> u32
    ensures { result ≡ whole ceil index_cap x }
{
    c_numbers::ceil_index(x)
}

#[unsafe(no_mangle)]
pub extern "C" fn wb_is_finite(x: f32) -> bool
    ensures { result ≡ is_finite x }
{
    num_float::is_finite(x)
}

#[unsafe(no_mangle)]
pub extern "C" fn wb_le_total(a: f32, b: f32) -> bool
    ensures { result ≡ total_le a b }
{
    num_float::le_total(a, b)
}

// ---- the combiner: writeback.rs

#[unsafe(no_mangle)]
pub extern "C" fn wb_combiner_new(uniform: CombinerUniform, mode: Mode) -> CombinerAnswer
    ensures { result ≡ combiner_answer (new_call uniform (mode_of mode)) }
{
    c_combiner::combiner_new(uniform, mode)
}

#[unsafe(no_mangle)]
pub extern "C" fn wb_combiner_color(combiner: Parts, shade: Rgba) -> ColorAnswer
    ensures { result ≡ color_answer (color_call (combiner_from combiner) shade) }
{
    c_combiner::combiner_color(combiner, shade)
}

#[unsafe(no_mangle)]
pub extern "C" fn wb_strict_color(combiner: Parts) -> StrictAnswer
    ensures { result ≡ strict_answer (strict_call (combiner_from combiner)) }
{
    c_combiner::strict_color(combiner)
}

// ---- the blender: writeback.rs

#[unsafe(no_mangle)]
pub extern "C" fn wb_destination(mode: Mode, mask: u8, memory: u8) -> Answer
    ensures { result ≡ answer_of same (destination_call (mode_of mode) mask memory) }
{
    c_pixel::destination(mode, mask, memory)
}

#[unsafe(no_mangle)]
pub extern "C" fn wb_color_known(
    mode: Mode,
    alpha: f32,
    mask: u8,
    known: bool,
    coverage: u8,
    memory_rgb: bool,
) -> Answer
    ensures { result ≡ answer_of bit (color_known_call (mode_of mode) alpha mask (coverage_of known coverage) memory_rgb) }
{
    c_pixel::color_known(mode, alpha, mask, known, coverage, memory_rgb)
}

#[unsafe(no_mangle)]
pub extern "C" fn wb_blend(
    mode: Mode,
    combiner: Parts,
    rgba: Rgba,
    memory: Rgba,
    shade_alpha: f32,
    mask: u8,
    coverage: u8,
) -> Answer
    ensures { result ≡ answer_of four_bytes (blend_call (mode_of mode) (combiner_from combiner) rgba memory shade_alpha mask coverage) }
{
    c_pixel::blend(mode, combiner, rgba, memory, shade_alpha, mask, coverage)
}

// ---- packing: coherence.rs

#[unsafe(no_mangle)]
pub extern "C" fn wb_pack_color(rgba: u32, coverage: u8, dither: u8) -> Answer
    ensures { result ≡ answer_of same (pack_color_call (bytes_from rgba) coverage dither) }
{
    c_pixel::pack_color(rgba, coverage, dither)
}

#[unsafe(no_mangle)]
pub extern "C" fn wb_pack_depth(depth: f32) -> u32
    ensures { result ≡ pack_depth_of depth }
{
    c_numbers::pack_depth(depth)
}

#[unsafe(no_mangle)]
pub extern "C" fn wb_supported(fmt: u8, siz: u8, width: u32, depth: bool) -> Answer
    ensures { result ≡ answer_of bit (supported_call (writer_of fmt siz width depth)) }
{
    c_pixel::supported(fmt, siz, width, depth)
}

#[unsafe(no_mangle)]
pub extern "C" fn wb_pixel_bytes(fmt: u8, siz: u8, width: u32, depth: bool) -> Answer
    ensures { result ≡ answer_of same (pixel_bytes_call (writer_of fmt siz width depth)) }
{
    c_pixel::pixel_bytes(fmt, siz, width, depth)
}

#[unsafe(no_mangle)]
pub extern "C" fn wb_encode(
    fmt: u8,
    siz: u8,
    width: u32,
    depth: bool,
    rgba: u32,
    coverage: u8,
    pixel: u32,
    literal: bool,
    word: u32,
    rgb_dither: u8,
    big_endian: bool,
) -> Answer
    ensures { result ≡ answer_of two_bytes (encode_call (writer_of fmt siz width depth) (bytes_from rgba) coverage pixel (literal_of literal word) rgb_dither (encoding_of big_endian)) }
{
    c_pixel::encode(
        fmt, siz, width, depth, rgba, coverage, pixel, literal, word, rgb_dither, big_endian,
    )
}

// ---- a draw: writeback.rs

#[unsafe(no_mangle)]
pub extern "C" fn wb_in_range(x: f32, y: f32) -> bool
    ensures { result ≡ in_range_x x && in_range_y y }
{
    c_draw::in_range(x, y)
}

#[unsafe(no_mangle)]
pub extern "C" fn wb_admitted(
    combiner: Parts,
    geometry: GeometryParts,
    vertices: &[f32],
    present: &[u8],
    indices: &[u32],
) -> bool
    ensures { result ≡ admitted_of (combiner_from combiner) (geometry_from geometry) vertices.now present.now indices.now }
{
    let lists = Lists {
        vertices,
        present,
        indices,
    };
    c_draw::admitted(combiner, geometry, &lists)
}

// Pixel (x, y) of triangle i, or of the rectangle.
#[unsafe(no_mangle)]
pub extern "C" fn wb_pixel(
    mode: Mode,
    combiner: Parts,
    cull: bool,
    geometry: GeometryParts,
    vertices: &[f32],
    present: &[u8],
    indices: &[u32],
    i: usize,
    y: u32,
    x: u32,
) -> FragmentAnswer
    ensures { result ≡ fragment_answer (emitted_from mode combiner cull geometry vertices.now present.now indices.now i y x) }
{
    let lists = Lists {
        vertices,
        present,
        indices,
    };
    c_draw::pixel(mode, combiner, cull, geometry, &lists, i, y, x)
}
