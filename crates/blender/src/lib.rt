// The blender of writeback.rs: how an emitted pixel meets the colour and the coverage in memory.
#![tactic(auto)]

ghost use Rattle.std.specs.Prelude.{◌≡◌, ◌≤◌};
ghost use Rattle.blender.specs.Mux.{mux_of};
ghost use Rattle.blender.specs.Coverage.{overflows, blends, clamp_of, destination_of};
ghost use Rattle.blender.specs.Known.{reject, alone, missing, any_coverage, color_known};
ghost use Rattle.blender.specs.Layer.{opaque_of, own_of};
ghost use Rattle.blender.specs.Blend.{source_of, factor_a, factor_b, divisor_of, mixed_of, bytes_of, blend_of};
ghost use Rattle.blender.specs.Joined.{or_zeros, joined};

use combiner::Combiner;
use state::{RenderMode, Rgba, Rgba8};

pub mod layer; // pixels whose blend is a sum with the memory's colour, or stored as they are where the samples overflow

// A pixel's coverage in memory, 0 to 7 for 1 to 8 samples, if it is known.
pub type Coverage = Option<u8>;

// An emitted pixel: its combined colour, its shade alpha and its number of samples. That these are 1 to 8 is a clause and no ghost field, since definitions
// speak of a Source of any mask.
#[derive(Clone, Copy)]
pub struct Source {
    pub color: Rgba,
    pub shade_alpha: f32,
    pub count: u8,
}

// The blender's four selectors, each from 0 to 3, by number as the word has them: what a number names turns on the selector.
#[derive(Clone, Copy)]
pub struct Mux {
    pub p: u32,
    pub a: u32,
    pub m: u32,
    pub b: u32,
}

// The first cycle's selectors: the mux is the upper half of the other mode's low word.
#[tactic(auto, unfolding(crate::specs::Mux::mux_of))]
pub fn decode_mux(word: u16) -> Mux
    ensures { result ≡ mux_of word }
{
    let w = word as u32;
    Mux {
        p: num_bits::bits(w, 14, 2),
        a: num_bits::bits(w, 10, 2),
        m: num_bits::bits(w, 6, 2),
        b: num_bits::bits(w, 2, 2),
    }
}

// Whether the samples of the pixel and of the memory are more than 8. The sum is wide, so that it fits for every count.
fn overflowing(count: u8, coverage: Coverage) -> bool
    ensures { result ≡ overflows count coverage }
{
    coverage.is_some_and(|c| 8 <= count as u32 + c as u32)
}

// Whether the pixel is blended with memory. Mode, count and coverage stay three parameters, here, below and in frame_pixel: the mode is the draw's, the count the pixel's and
// the coverage the memory's, so that a struct of them would be made for a call.
#[tactic(auto, unfolding(crate::specs::Coverage::blends))]
pub fn blending(mode: RenderMode, count: u8, coverage: Coverage) -> bool
    ensures { result ≡ blends mode count coverage }
{
    mode.force_blend || (mode.antialias && !overflowing(count, coverage))
}

// cvg_dst 0. That samples are 1 to 8 and a coverage at most 7 are clauses, here and below, and no types: the definitions take any numbers.
#[tactic(auto, unfolding(crate::specs::Coverage::clamp_of))]
fn clamp(blend: bool, count: u8, memory: u8) -> u8
    requires { (1 ≤ count) × (count ≤ 8) × (memory ≤ 7) }
    ensures { result ≡ clamp_of blend count memory }
{
    if blend {
        (count + memory).min(7)
    } else {
        count - 1
    }
}

// The coverage that memory keeps after the pixel.
#[tactic(auto, using(crate::proofs::Range::destination_le), unfolding(crate::specs::Coverage::destination_of))]
pub fn destination(mode: RenderMode, count: u8, memory: u8) -> u8
    requires { (1 ≤ count) × (count ≤ 8) × (memory ≤ 7) }
    ensures { (result ≡ destination_of mode count memory) × (result ≤ 7) }
{
    match mode.cvg_dst {
        0 => clamp(blending(mode, count, Some(memory)), count, memory),
        1 => (count + memory) % 8,
        2 => 7,
        _ => memory,
    }
}

// Rust's `reject`: A is the pixel's alpha, B is 1 - A, and the alpha is whole, so that M has no share.
#[tactic(auto, unfolding(crate::specs::Known::reject))]
pub fn rejects(mode: RenderMode, alpha: f32) -> bool
    ensures { result ≡ reject mode alpha }
{
    let mux = decode_mux(mode.blender_mux);
    mux.a == 0 && mux.b == 0 && alpha >= 1.0
}

// Whether P is stored as it is: no blend, or M has no share.
#[tactic(auto, unfolding(crate::specs::Known::alone))]
fn stands_alone(mode: RenderMode, alpha: f32, count: u8, coverage: Coverage) -> bool
    ensures { result ≡ alone mode alpha count coverage }
{
    !blending(mode, count, coverage) || rejects(mode, alpha)
}

// Whether nothing of the memory enters the pixel's colour.
#[tactic(auto, unfolding(crate::specs::Layer::opaque_of))]
pub fn opaque(mode: RenderMode, alpha: f32) -> bool
    ensures { result ≡ opaque_of mode alpha }
{
    let mux = decode_mux(mode.blender_mux);
    mux.p != 1 && (rejects(mode, alpha) || !(mode.force_blend || mode.antialias))
}

// Whether a selector of P or M names the memory's colour while that is not known.
fn lacking(selector: u32, memory_rgb: bool) -> bool
    ensures { result ≡ missing selector memory_rgb }
{
    selector == 1 && !memory_rgb
}

// Whether the colour can be told though the coverage in memory is not known.
#[tactic(auto, unfolding(crate::specs::Known::any_coverage))]
fn any_coverage(mode: RenderMode) -> bool
    ensures { result ≡ any_coverage mode }
{
    let mux = decode_mux(mode.blender_mux);
    mux.b != 1 && (mode.force_blend || (mux.p == mux.m && mux.b == 0))
}

// Whether the pixel's colour can be told from what is known of the memory under it.
#[tactic(auto, unfolding(crate::specs::Known::color_known))]
pub fn color_known(
    mode: RenderMode,
    alpha: f32,
    count: u8,
    coverage: Coverage,
    memory_rgb: bool,
) -> bool
    ensures { result ≡ color_known mode alpha count coverage memory_rgb }
{
    let mux = decode_mux(mode.blender_mux);
    !lacking(mux.p, memory_rgb)
        && (stands_alone(mode, alpha, count, coverage)
            || (!lacking(mux.m, memory_rgb) && (coverage.is_some() || any_coverage(mode))))
}

// The colour itself, channel by channel: the compiler then chooses one of several by a branch, and no pixel waits for a copy in memory
// (docs/landings/03-speed.md).
fn copy(x: Rgba) -> Rgba
    ensures { result ≡ x }
{
    Rgba {
        r: x.r,
        g: x.g,
        b: x.b,
        a: x.a,
    }
}

// The colour that P or M names.
fn input(selector: u32, combiner: Combiner, rgba: Rgba, memory: Rgba) -> Rgba
    ensures { result ≡ source_of selector combiner rgba memory }
{
    match selector {
        0 => copy(rgba),
        1 => copy(memory),
        2 => copy(combiner.blend),
        _ => copy(combiner.fog),
    }
}

// The factor of P.
fn factor_a(selector: u32, alpha: f32, fog: f32, shade: f32) -> f32
    ensures { result ≡ factor_a selector alpha fog shade }
{
    match selector {
        0 => alpha,
        1 => fog,
        2 => shade,
        _ => 0.0,
    }
}

// The factor of M.
#[tactic(auto, unfolding(crate::specs::Blend::factor_b))]
fn factor_b(selector: u32, a: f32, coverage: u8) -> f32
    ensures { result ≡ factor_b selector a coverage }
{
    match selector {
        0 => 1.0 - a,
        1 => coverage as f32 / 8.0,
        2 => 1.0,
        _ => 0.0,
    }
}

// A NaN fails the test too, as in Rust's max. std's `max` was tried, and the search did not prove the definition from its contract.
fn divisor(sum: f32) -> f32
    ensures { result ≡ divisor_of sum }
{
    let least = 1.0 / 255.0;
    if sum > least { sum } else { least }
}

// One channel.
#[tactic(auto, unfolding(crate::specs::Blend::mixed_of))]
fn mixed(stands: bool, forced: bool, p: f32, a: f32, m: f32, b: f32) -> f32
    ensures { result ≡ mixed_of stands forced p a m b }
{
    if stands {
        return p;
    }
    let sum = p * a + m * b;
    if forced { sum } else { sum / divisor(a + b) }
}

// The colour of a pixel that is opaque: P is not the memory's. Mode and combiner stay two parameters, here and in the crates above: some functions take one
// of them alone, `blend` takes both as the Rust does, and Paint and Shapes hold them among other fields, so that a struct of the two would be made for calls only.
#[tactic(auto, unfolding(crate::specs::Layer::own_of))]
pub fn own_color(mode: RenderMode, combiner: Combiner, rgba: Rgba) -> Rgba
    ensures { result ≡ own_of mode combiner rgba }
{
    let mux = decode_mux(mode.blender_mux);
    input(mux.p, combiner, rgba, rgba)
}

// The three mixed channels and the pixel's alpha, as bytes.
#[tactic(auto, unfolding(crate::specs::Blend::bytes_of))]
fn in_bytes(stands: bool, forced: bool, p: Rgba, a: f32, m: Rgba, b: f32, alpha: f32) -> Rgba8
    ensures { result ≡ bytes_of stands forced p a m b alpha }
{
    Rgba8 {
        r: num_float::byte_of(mixed(stands, forced, p.r, a, m.r, b)),
        g: num_float::byte_of(mixed(stands, forced, p.g, a, m.g, b)),
        b: num_float::byte_of(mixed(stands, forced, p.b, a, m.b, b)),
        a: num_float::byte_of(alpha),
    }
}

// What is stored of a pixel of colour rgba, with count samples, over the memory's colour and coverage.
#[tactic(auto, unfolding(crate::specs::Blend::blend_of))]
pub fn blend(
    mode: RenderMode,
    combiner: Combiner,
    rgba: Rgba,
    memory: Rgba,
    shade_alpha: f32,
    count: u8,
    coverage: u8,
) -> Rgba8
    ensures { result ≡ blend_of mode combiner rgba memory shade_alpha count coverage }
{
    let mux = decode_mux(mode.blender_mux);
    let p = input(mux.p, combiner, rgba, memory);
    let m = input(mux.m, combiner, rgba, memory);
    let a = factor_a(mux.a, rgba.a, combiner.fog.a, shade_alpha);
    let b = factor_b(mux.b, a, coverage);
    let stands = stands_alone(mode, rgba.a, count, Some(coverage));
    in_bytes(stands, mode.force_blend, p, a, m, b, rgba.a)
}

// A colour that is not known is passed as zeros. c_answers' `no_color` has the same zeros for another need: what C is answered where there is no colour.
pub fn color_or_zeros(memory: Option<Rgba>) -> Rgba
    ensures { result ≡ or_zeros memory }
{
    memory.unwrap_or(Rgba {
        r: 0.0,
        g: 0.0,
        b: 0.0,
        a: 0.0,
    })
}

// `color_known` and `blend` of a pixel that is handed over once: what is stored of it, if that is known.
#[tactic(auto, unfolding(crate::specs::Joined::joined))]
pub fn blend_known(
    mode: RenderMode,
    combiner: Combiner,
    source: Source,
    coverage: Coverage,
    memory: Option<Rgba>,
) -> Option<Rgba8>
    ensures { result ≡ joined mode combiner source coverage memory }
{
    let color = source.color;
    if !color_known(mode, color.a, source.count, coverage, memory.is_some()) {
        return None;
    }
    Some(blend(
        mode,
        combiner,
        color,
        color_or_zeros(memory),
        source.shade_alpha,
        source.count,
        coverage.unwrap_or(0),
    ))
}
