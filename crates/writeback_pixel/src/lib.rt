// The single-pixel calls as a host makes them: each checks what number 11 (docs/RULES.md) names of its arguments.
#![tactic(auto)]

ghost use Rattle.std.specs.Prelude.{◌≡◌, Ok, Err, if◌then◌else◌};
ghost use Rattle.refused.specs.declared.Refusal.TheVariants.{Arguments};
ghost use Rattle.writeback_pixel.specs.Refusal.{mask_ok, coverage_ok, known_ok, width_ok, siz_ok, place_ok, writer_ok, encode_ok};
ghost use Rattle.writeback_pixel.specs.Calls.{destination_means, destination_call, answer_means, color_known_call, blend_means, blend_call, pack_color_means, pack_color_call, supported_call, pixel_bytes_means, pixel_bytes_call, encode_means, encode_call};

use blender::Coverage;
use combiner::Combiner;
use refused::Refusal;
use state::{RenderMode, Rgba, Rgba8};
use words_pack::{Bytes2, FramebufferEncoding, Writer};

const FULL: u8 = 7;

const WIDEST: u32 = 1024;

const LARGEST: u8 = 3;

const PIXELS: usize = 1048576;

fn mask_ok(mask: u8) -> bool
    ensures { result ≡ mask_ok mask }
{
    0 < mask
}

fn coverage_ok(coverage: u8) -> bool
    ensures { result ≡ coverage_ok coverage }
{
    coverage <= FULL
}

// An absent coverage is not taken.
fn known_ok(coverage: Coverage) -> bool
    ensures { result ≡ known_ok coverage }
{
    coverage.is_none_or(coverage_ok)
}

fn siz_ok(siz: u8) -> bool
    ensures { result ≡ siz_ok siz }
{
    siz <= LARGEST
}

// `size_ok` of crate frame has the same bounds for another number, 1, and neither crate rests on the other.
fn width_ok(width: u32) -> bool
    ensures { result ≡ width_ok width }
{
    (1..=WIDEST).contains(&width)
}

fn place_ok(pixel: usize) -> bool
    ensures { result ≡ place_ok pixel }
{
    pixel < PIXELS
}

// Every call that takes a writer looks at its width and siz, also where it needs only one of them.
fn writer_ok(writer: Writer) -> bool
    ensures { result ≡ writer_ok writer }
{
    width_ok(writer.layout.width) && siz_ok(writer.layout.siz)
}

// Everything that `encode` takes.
fn encode_ok(writer: Writer, coverage: u8, pixel: usize) -> bool
    ensures { result ≡ encode_ok writer coverage pixel }
{
    writer_ok(writer) && coverage_ok(coverage) && place_ok(pixel)
}

// Number 11 where the arguments are not taken.
fn taken(ok: bool) -> Result<(), Refusal>
    ensures { result ≡ (if ok then Ok tt else Err Arguments) }
{
    ok.then_some(()).ok_or(Refusal::Arguments)
}

// The coverage that memory keeps after a pixel with the mask's samples over a coverage.
#[tactic(auto, using(num_bits::proofs::Masks::ones_range), unfolding(crate::specs::Calls::destination_call, crate::specs::Refusal::checked))]
pub fn destination(mode: RenderMode, mask: u8, memory: u8) -> Result<u8, Refusal>
    ensures { destination_means result ≡ destination_call mode mask memory }
{
    taken(mask_ok(mask) && coverage_ok(memory))?;
    let count = num_bits::ones(mask);
    Ok(blender::destination(mode, count, memory))
}

// Whether a pixel's colour can be told from what is known of the memory under it.
#[tactic(auto, unfolding(crate::specs::Calls::color_known_call, crate::specs::Refusal::checked))]
pub fn color_known(
    mode: RenderMode,
    alpha: f32,
    mask: u8,
    coverage: Coverage,
    memory_rgb: bool,
) -> Result<bool, Refusal>
    ensures { answer_means result ≡ color_known_call mode alpha mask coverage memory_rgb }
{
    taken(mask_ok(mask) && known_ok(coverage))?;
    let count = num_bits::ones(mask);
    Ok(blender::color_known(mode, alpha, count, coverage, memory_rgb))
}

// The four bytes of a pixel blended with memory.
#[tactic(auto, unfolding(crate::specs::Calls::blend_call, crate::specs::Refusal::checked))]
pub fn blend(
    mode: RenderMode,
    combiner: Combiner,
    rgba: Rgba,
    memory: Rgba,
    shade_alpha: f32,
    mask: u8,
    coverage: u8,
) -> Result<Rgba8, Refusal>
    ensures { blend_means result ≡ blend_call mode combiner rgba memory shade_alpha mask coverage }
{
    taken(mask_ok(mask) && coverage_ok(coverage))?;
    let count = num_bits::ones(mask);
    Ok(blender::blend(mode, combiner, rgba, memory, shade_alpha, count, coverage))
}

// A colour as a 16-bit word.
#[tactic(auto, unfolding(crate::specs::Calls::pack_color_call, crate::specs::Refusal::checked))]
pub fn pack_color(rgba: Rgba8, coverage: u8, dither: u8) -> Result<u16, Refusal>
    ensures { pack_color_means result ≡ pack_color_call rgba coverage dither }
{
    taken(coverage_ok(coverage))?;
    Ok(words_pack::pack_color(rgba, coverage, dither))
}

// Whether a writer's pixels can be encoded.
#[tactic(auto, unfolding(crate::specs::Calls::supported_call, crate::specs::Refusal::checked))]
pub fn supported(writer: Writer) -> Result<bool, Refusal>
    ensures { answer_means result ≡ supported_call writer }
{
    taken(writer_ok(writer))?;
    Ok(words_pack::supported(writer))
}

// How many bytes a writer's pixel takes.
#[tactic(auto, unfolding(crate::specs::Calls::pixel_bytes_call, crate::specs::Refusal::checked))]
pub fn pixel_bytes(writer: Writer) -> Result<usize, Refusal>
    ensures { pixel_bytes_means result ≡ pixel_bytes_call writer }
{
    taken(writer_ok(writer))?;
    Ok(words_pack::pixel_bytes(writer.layout))
}

// The two bytes that a writer puts into memory for a pixel.
#[tactic(auto, unfolding(crate::specs::Calls::encode_call, crate::specs::Refusal::checked))]
pub fn encode(
    writer: Writer,
    rgba: Rgba8,
    coverage: u8,
    pixel: usize,
    literal: Option<u32>,
    rgb_dither: u8,
    encoding: FramebufferEncoding,
) -> Result<Bytes2, Refusal>
    ensures { encode_means result ≡ encode_call writer rgba coverage pixel literal rgb_dither encoding }
{
    taken(encode_ok(writer, coverage, pixel))?;
    Ok(words_pack::encode(writer, rgba, coverage, pixel, literal, rgb_dither, encoding))
}
