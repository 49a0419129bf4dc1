// Rules F1 to F5 (docs/RULES.md) on one emitted pixel: the five bytes of a pixel by value, before and after. A byte is read only through what its mark
// allows; an unmarked one is only ever kept.
#![tactic(auto)]

ghost use Rattle.std.specs.Prelude.{◌≡◌, ◌≤◌, Some, None, is_some, unwrap_or, if◌then◌else◌, ◌==◌};
ghost use Rattle.blender.specs.Blend.{or_zero};
ghost use Rattle.blender.specs.Joined.{or_zeros};
ghost use Rattle.blender.specs.Settled.{full_from, settled_clamp};
ghost use Rattle.frame_pixel.specs.Marks.{color_marked, coverage_marked, mark_of};
ghost use Rattle.frame_pixel.specs.Rules.{rule_f2, unit, memory_of, rule_f4, fresh_coverage, rule_f5, coverage_at, assembled, pixel_step};
ghost use Rattle.frame_pixel.specs.Coloring.{stored_of, colors_of, own_colors, over_byte, over_colors, ColoringOf, colored_of};

use blender::layer::Layer;
use blender::{Coverage, Source};
use combiner::Combiner;
use state::{RenderMode, Rgba, Rgba8};

pub mod full; // pixels with all eight samples

// A pixel of the frame: its five bytes, with a mark beside them and not Options, as the frame has them and as the definitions to be believed speak of it. That a known coverage
// is at most 7 is a clause and no ghost field, since definitions make a Pixel of any bytes.
#[derive(Clone, Copy)]
pub struct Pixel {
    pub red: u8,
    pub green: u8,
    pub blue: u8,
    pub coverage: u8,
    pub mark: u8,
}

// A pixel's colour bytes.
#[derive(Clone, Copy)]
pub struct Colors {
    pub red: u8,
    pub green: u8,
    pub blue: u8,
}

impl Pixel {
    // F4.
    pub fn colors(self) -> Colors
        ensures { result ≡ rule_f4 self }
    {
        Colors {
            red: self.red,
            green: self.green,
            blue: self.blue,
        }
    }

    // The coverage, where it is marked.
    pub fn known_coverage(self) -> Coverage
        ensures { result ≡ coverage_at self }
    {
        coverage_marked(self.mark).then_some(self.coverage)
    }
}

// What is known of a pixel's colour ahead of the memory: the bytes of an opaque one, a layer over the memory's colour, or nothing, so that it is blended. An enum, whose one case
// is then carried out: as a struct with every answer worked out, pixels ran at 0.5 to 0.7 of their speed.
#[derive(Clone, Copy)]
pub enum Coloring {
    Opaque(Colors),
    Layered(Layer),
    Blended,
}

// The first three bytes of `blend`.
impl From<Rgba8> for Colors {
    ghost from_gives = { λ bytes colors. colors ≡ stored_of bytes };

    fn from(bytes: Rgba8) -> Colors {
        Colors {
            red: bytes.r,
            green: bytes.g,
            blue: bytes.b,
        }
    }
}

// The bytes of a colour.
impl From<Rgba> for Colors {
    ghost from_gives = { λ color colors. colors ≡ colors_of color };

    fn from(color: Rgba) -> Colors {
        Colors {
            red: num_float::byte_of(color.r),
            green: num_float::byte_of(color.g),
            blue: num_float::byte_of(color.b),
        }
    }
}

// What a word is made of: it takes nothing of the alpha.
impl From<Colors> for Rgba8 {
    ghost from_gives = { λ colors bytes. bytes ≡ record { r = colors.red; g = colors.green; b = colors.blue; a = 0 } };

    fn from(colors: Colors) -> Rgba8 {
        Rgba8 {
            r: colors.red,
            g: colors.green,
            b: colors.blue,
            a: 0,
        }
    }
}

// Mark 1.
pub fn color_marked(mark: u8) -> bool
    ensures { result ≡ color_marked mark }
{
    mark % 2 == 1
}

// Mark 2.
pub fn coverage_marked(mark: u8) -> bool
    ensures { result ≡ coverage_marked mark }
{
    2 <= mark % 4
}

// The mark byte of a colour and a coverage.
#[tactic(auto, unfolding(crate::specs::Marks::mark_of))]
pub fn mark_of(known: bool, covered: bool) -> u8
    ensures { result ≡ mark_of known covered }
{
    u8::from(known) + 2 * u8::from(covered)
}

// F2.
#[tactic(auto, unfolding(crate::specs::Rules::rule_f2))]
fn in_doubt(mode: RenderMode, source: Source, coverage: Coverage) -> bool
    ensures { result ≡ rule_f2 mode source coverage }
{
    coverage.is_none()
        && mode.antialias
        && !mode.force_blend
        && !blender::rejects(mode, source.color.a)
}

fn unit_of(byte: u8) -> f32
    ensures { result ≡ unit byte }
{
    byte as f32 / 255.0
}

// The colour bytes are looked at only if they are marked.
#[tactic(auto, unfolding(crate::specs::Rules::memory_of))]
fn memory_of(bytes: Pixel) -> Option<Rgba>
    ensures there { is_some result ≡ color_marked bytes.mark }
    ensures color { or_zeros result ≡ memory_of (color_marked bytes.mark) bytes }
{
    color_marked(bytes.mark).then(|| Rgba {
        r: unit_of(bytes.red),
        g: unit_of(bytes.green),
        b: unit_of(bytes.blue),
        a: 0.0,
    })
}

// F1 to F3 of a pixel that is blended: its colour, if it is then known. Mode and combiner are two parameters, for the reason beside blender's `own_color`.
fn blended(mode: RenderMode, combiner: Combiner, source: Source, bytes: Pixel) -> Option<Colors>
    ensures { result ≡ colored_of mode combiner source bytes }
{
    let coverage = bytes.known_coverage();
    if in_doubt(mode, source, coverage) {
        return None;
    }
    let memory = memory_of(bytes);
    let stored = blender::blend_known(mode, combiner, source, coverage, memory)?;
    Some(Colors::from(stored))
}

// F1 to F3, one by one. This and `rules` stand apart from `blended` and `step` for speed: a further caller of `step` costs the fast engine more than a quarter
// of its speed (docs/DECISIONS.md, Shape).
fn color_by_rules(
    mode: RenderMode,
    combiner: Combiner,
    source: Source,
    bytes: Pixel,
) -> Option<Colors>
    ensures { result ≡ colored_of mode combiner source bytes }
{
    let coverage = bytes.known_coverage();
    let color = source.color;
    let marked = color_marked(bytes.mark);
    let doubt = in_doubt(mode, source, coverage);
    if doubt || !blender::color_known(mode, color.a, source.count, coverage, marked) {
        return None;
    }
    let memory = blender::color_or_zeros(memory_of(bytes));
    let stored = blender::blend(
        mode,
        combiner,
        color,
        memory,
        source.shade_alpha,
        source.count,
        coverage.unwrap_or(0),
    );
    Some(Colors::from(stored))
}

// One channel of a layer over the memory's.
fn over(part: f32, share: f32, byte: u8) -> u8
    ensures { result ≡ over_byte part share byte }
{
    num_float::byte_of(part + unit_of(byte) * share)
}

// The bytes of a layered pixel over the memory's.
#[tactic(auto, unfolding(crate::specs::Coloring::over_colors))]
pub fn over_colors(layer: Layer, memory: Colors) -> Colors
    ensures { result ≡ over_colors layer memory }
{
    Colors {
        red: over(layer.r, layer.share, memory.red),
        green: over(layer.g, layer.share, memory.green),
        blue: over(layer.b, layer.share, memory.blue),
    }
}

// F1 to F3 of a pixel that is laid over the memory's colour: it is known where that is.
fn laid(layer: Layer, bytes: Pixel) -> Option<Colors>
    ensures { result ≡ (if color_marked bytes.mark then Some (over_colors layer (rule_f4 bytes)) else None) }
{
    color_marked(bytes.mark).then(|| over_colors(layer, bytes.colors()))
}

// F1 to F3.
fn color_after(
    mode: RenderMode,
    combiner: Combiner,
    source: Source,
    coloring: Coloring,
    bytes: Pixel,
) -> Option<Colors>
    requires { ColoringOf mode combiner source.color coloring }
    ensures { result ≡ colored_of mode combiner source bytes }
{
    match coloring {
        Coloring::Opaque(colors) => Some(colors),
        Coloring::Layered(layer) => laid(layer, bytes),
        Coloring::Blended => blended(mode, combiner, source, bytes),
    }
}

// 7 from this many samples on.
fn full_from(least: u8, count: u8) -> Coverage
    ensures { result ≡ full_from least count }
{
    (count >= least).then_some(7)
}

// What memory keeps with cvg_dst 0 whatever it had, if that is one number.
fn fresh_clamp(mode: RenderMode, count: u8) -> Coverage
    requires { 1 ≤ count }
    ensures { result ≡ settled_clamp mode.force_blend mode.antialias count }
{
    // Forced, seven samples or more and any memory coverage are cut at 7.
    if mode.force_blend {
        return full_from(7, count);
    }
    // All eight samples overflow over any memory coverage and are stored as they are; fewer may blend.
    if mode.antialias {
        return full_from(8, count);
    }
    Some(count - 1)
}

// F5, an unmarked coverage: the one number that `destination` gives for all eight memory coverages, without asking it of each.
#[tactic(auto, using(crate::proofs::Eight::fresh_settled), unfolding(blender::specs::Settled::settled_of))]
fn fresh(mode: RenderMode, count: u8) -> Coverage
    requires { (1 ≤ count) × (count ≤ 8) }
    ensures { result ≡ fresh_coverage mode count }
{
    match mode.cvg_dst {
        0 => fresh_clamp(mode, count),
        2 => Some(7),
        _ => None,
    }
}

// F5.
#[tactic(auto, unfolding(crate::specs::Rules::rule_f5))]
fn next_coverage(mode: RenderMode, count: u8, coverage: Coverage) -> Coverage
    requires samples { (1 ≤ count) × (count ≤ 8) }
    requires small { or_zero coverage ≤ 7 }
    ensures { result ≡ rule_f5 mode count coverage }
{
    match coverage {
        Some(c) => Some(blender::destination(mode, count, c)),
        None => fresh(mode, count),
    }
}

// The five bytes of what the rules say: F4, a byte of which nothing is then known stays.
#[tactic(auto, unfolding(crate::specs::Rules::assembled))]
fn assemble(color: Option<Colors>, coverage: Coverage, old: Pixel) -> Pixel
    ensures { result ≡ assembled (is_some color) (unwrap_or color (rule_f4 old)) coverage old.coverage }
{
    let colors = color.unwrap_or(old.colors());
    Pixel {
        red: colors.red,
        green: colors.green,
        blue: colors.blue,
        coverage: coverage.unwrap_or(old.coverage),
        mark: mark_of(color.is_some(), coverage.is_some()),
    }
}

// F1 to F5, one by one: the bytes at an emitted pixel's place after it. Numbers 1 to 3 leave no known coverage above 7. Source and bytes stay two parameters, here, above and below:
// one is what is emitted, and the other what was there.
pub fn rules(mode: RenderMode, combiner: Combiner, source: Source, bytes: Pixel) -> Pixel
    requires samples { (1 ≤ source.count) × (source.count ≤ 8) }
    requires small { or_zero (coverage_at bytes) ≤ 7 }
    ensures { result ≡ pixel_step mode combiner source bytes }
{
    let color = color_by_rules(mode, combiner, source, bytes);
    let coverage = next_coverage(mode, source.count, bytes.known_coverage());
    assemble(color, coverage, bytes)
}

// The same, by what is known ahead of the pixel.
pub fn step(
    mode: RenderMode,
    combiner: Combiner,
    source: Source,
    coloring: Coloring,
    bytes: Pixel,
) -> Pixel
    requires samples { (1 ≤ source.count) × (source.count ≤ 8) }
    requires small { or_zero (coverage_at bytes) ≤ 7 }
    requires colored { ColoringOf mode combiner source.color coloring }
    ensures { result ≡ pixel_step mode combiner source bytes }
{
    let color = color_after(mode, combiner, source, coloring, bytes);
    let coverage = next_coverage(mode, source.count, bytes.known_coverage());
    assemble(color, coverage, bytes)
}

// The bytes of a pixel's own colour.
#[tactic(auto, unfolding(crate::specs::Coloring::own_colors))]
pub fn own_colors(mode: RenderMode, combiner: Combiner, color: Rgba) -> Colors
    ensures { result ≡ own_colors mode combiner color }
{
    blender::own_color(mode, combiner, color).into()
}
