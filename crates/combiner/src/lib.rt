// The colour combiner of writeback.rs: a draw's constants and selectors, and the colour that they give for a shade.
#![tactic(auto)]

ghost use Rattle.std.specs.Prelude.{◌≡◌, ◌≤◌, ◌&&◌};
ghost use Rattle.combiner.specs.Combine.{element, color_input, alpha_input, mixed, full_shade, channel_at, alpha_at, color_of};
ghost use Rattle.combiner.specs.Strict.{zero_color, zero_alpha, constant_color, constant_alpha, flat, pure, filled, word_of, strict_of};
ghost use Rattle.combiner.specs.New.{plain, combiner_of, new_of};
ghost use Rattle.combiner.specs.Means.{made_means, new_call, color_means, color_call, strict_means, strict_call};

use combiner_inputs::{AlphaIn, ColorIn, CycleSel};
use state::{AlphaCompare, BlendClass, CombinerUniform, RenderMode, Rgba};

#[derive(Clone, Copy)]
pub struct Combiner {
    pub selectors: CycleSel,
    pub prim: Rgba,
    pub env: Rgba,
    pub blend: Rgba,
    pub fog: Rgba,
    pub lod: f32,
}

// Red, green or blue by 0, 1 and 2, and alpha by any other number: as the Rust and `element` count channels, every number has a meaning.
#[tactic(auto, unfolding(crate::specs::Combine::element))]
fn pick_channel(c: Rgba, i: u8) -> f32
    ensures { result ≡ element c i }
{
    match i {
        0 => c.r,
        1 => c.g,
        2 => c.b,
        _ => c.a,
    }
}

// One channel of four inputs, if each of them is there.
#[tactic(auto, unfolding(crate::specs::Combine::mixed))]
pub fn mix(a: Option<f32>, b: Option<f32>, c: Option<f32>, d: Option<f32>) -> Option<f32>
    ensures { result ≡ mixed a b c d }
{
    Some(num_float::channel(a?, b?, c?, d?))
}

// The shade of a rectangle, with which a combiner is also tried.
pub fn full_shade() -> Rgba
    ensures { result ≡ full_shade }
{
    Rgba {
        r: 1.0,
        g: 1.0,
        b: 1.0,
        a: 1.0,
    }
}

// Whether red, green and blue are one constant, (0 - 0) * 0 + d.
#[tactic(auto, unfolding(crate::specs::Strict::zero_color, crate::specs::Strict::constant_color, combiner_inputs::specs::Inputs::color_number))]
fn color_is_flat(s: CycleSel) -> bool
    ensures { result ≡ (zero_color s.ca && zero_color s.cb && zero_color s.cc && constant_color s.cd) }
{
    s.ca == ColorIn::Zero
        && s.cb == ColorIn::Zero
        && s.cc == ColorIn::Zero
        && matches!(
            s.cd,
            ColorIn::Primitive | ColorIn::Environment | ColorIn::One | ColorIn::Zero
        )
}

// The same of alpha, whose inputs are another enum.
#[tactic(auto, unfolding(crate::specs::Strict::zero_alpha, crate::specs::Strict::constant_alpha, combiner_inputs::specs::Inputs::alpha_number))]
fn alpha_is_flat(s: CycleSel) -> bool
    ensures { result ≡ (zero_alpha s.aa && zero_alpha s.ab && zero_alpha s.ac && constant_alpha s.ad) }
{
    s.aa == AlphaIn::Zero
        && s.ab == AlphaIn::Zero
        && s.ac == AlphaIn::Zero
        && matches!(
            s.ad,
            AlphaIn::Primitive | AlphaIn::Environment | AlphaIn::One
        )
}

#[tactic(auto, unfolding(crate::specs::Strict::flat))]
fn is_flat(s: CycleSel) -> bool
    ensures { result ≡ flat s }
{
    color_is_flat(s) && alpha_is_flat(s)
}

// Empty or full.
#[tactic(auto, unfolding(crate::specs::Strict::pure))]
fn is_pure(v: f32) -> bool
    ensures { result ≡ pure v }
{
    v == 0.0 || v == 1.0
}

// A channel's bits of the word.
#[tactic(auto, unfolding(crate::specs::Strict::filled))]
fn fill(v: f32, bits: u16) -> u16
    ensures value { result ≡ filled v bits }
    ensures at_most { result ≤ bits }
{
    if v == 1.0 { bits } else { 0 }
}

// The word of a colour, if it is opaque and each channel is empty or full.
#[tactic(auto, unfolding(crate::specs::Strict::word_of))]
fn strict_word(c: Rgba) -> Option<u16>
    ensures { result ≡ word_of c }
{
    let opaque = c.a == 1.0;
    if opaque && is_pure(c.r) && is_pure(c.g) && is_pure(c.b) {
        Some(fill(c.r, 0xf800) + fill(c.g, 0x07c0) + fill(c.b, 0x003e))
    } else {
        None
    }
}

// Whether a mode asks for no more than a combiner and a blender: one cycle, no depth, no alpha test, coverage apart from alpha.
#[tactic(auto, unfolding(crate::specs::New::plain, crate::specs::New::compares, crate::specs::New::blends_color))]
fn is_plain(mode: RenderMode) -> bool
    ensures { result ≡ plain mode }
{
    let depth = mode.z_test || mode.z_write;
    let alpha = mode.cvg_x_alpha
        || mode.alpha_compare != AlphaCompare::None
        || mode.alpha_cvg_select;
    let class = mode.blend_class == BlendClass::BlendColor || mode.color_on_coverage;
    mode.cycle_type == 0 && !(depth || alpha || class)
}

// The constants of a uniform and the selectors of its second cycle, which one-cycle mode reads.
#[tactic(auto, unfolding(crate::specs::New::combiner_of))]
fn read_uniform(u: CombinerUniform) -> Combiner
    ensures { result ≡ combiner_of u }
{
    let decoded = combiner_inputs::decode_combine(u.combine_l, u.combine_h);
    Combiner {
        selectors: decoded.cyc1,
        prim: u.prim,
        env: u.env,
        blend: u.blend_color,
        fog: u.fog_color,
        lod: u.lod_params[2],
    }
}

// What a colour selector names, in a channel.
#[tactic(auto, unfolding(crate::specs::Combine::color_input))]
pub fn color_input(combiner: Combiner, input: ColorIn, shade: Rgba, channel: u8) -> Option<f32>
    ensures { result ≡ color_input combiner input shade channel }
{
    match input {
        ColorIn::Zero | ColorIn::Combined | ColorIn::CombinedAlpha => Some(0.0),
        ColorIn::One | ColorIn::LodFraction => Some(1.0),
        ColorIn::Primitive => Some(pick_channel(combiner.prim, channel)),
        ColorIn::Environment => Some(pick_channel(combiner.env, channel)),
        ColorIn::Shade => Some(pick_channel(shade, channel)),
        ColorIn::PrimitiveAlpha => Some(combiner.prim.a),
        ColorIn::EnvAlpha => Some(combiner.env.a),
        ColorIn::ShadeAlpha => Some(shade.a),
        ColorIn::PrimLodFrac => Some(combiner.lod),
        _ => None,
    }
}

// What an alpha selector names.
#[tactic(auto, unfolding(crate::specs::Combine::alpha_input))]
pub fn alpha_input(combiner: Combiner, input: AlphaIn, shade: Rgba) -> Option<f32>
    ensures { result ≡ alpha_input combiner input shade }
{
    match input {
        AlphaIn::Zero | AlphaIn::Combined => Some(0.0),
        AlphaIn::One | AlphaIn::LodFraction => Some(1.0),
        AlphaIn::Primitive => Some(combiner.prim.a),
        AlphaIn::Environment => Some(combiner.env.a),
        AlphaIn::Shade => Some(shade.a),
        AlphaIn::PrimLodFrac => Some(combiner.lod),
        _ => None,
    }
}

impl Combiner {
    // The combiner of a draw, if it gives a colour. Whether it does turns on no shade, so one shade tells. It is put in the place of its calls: a caller that has a
    // mode in another form would else make the whole of one, also for a draw with a texture, which has no combiner whatever its mode.
    #[tactic(auto, unfolding(crate::specs::New::new_of, crate::specs::Means::new_call))]
    #[inline(always)]
    pub fn new(uniform: CombinerUniform, mode: RenderMode) -> Option<Combiner>
        ensures answer { made_means result ≡ new_call uniform mode }
        ensures value { result ≡ new_of uniform mode }
    {
        if uniform.tex_enable != 0 || !is_plain(mode) {
            return None;
        }
        let combiner = read_uniform(uniform);
        combiner.color(full_shade())?;
        Some(combiner)
    }

    // Red, green or blue. This and the next three borrow the combiner: by value it would be copied for each channel.
    #[tactic(auto, unfolding(crate::specs::Combine::channel_at))]
    fn rgb(&self, shade: Rgba, channel: u8) -> Option<f32>
        ensures { result ≡ channel_at self.now shade channel }
    {
        let s = self.selectors;
        mix(
            color_input(*self, s.ca, shade, channel),
            color_input(*self, s.cb, shade, channel),
            color_input(*self, s.cc, shade, channel),
            color_input(*self, s.cd, shade, channel),
        )
    }

    #[tactic(auto, unfolding(crate::specs::Combine::alpha_at))]
    fn alpha(&self, shade: Rgba) -> Option<f32>
        ensures { result ≡ alpha_at self.now shade }
    {
        let s = self.selectors;
        mix(
            alpha_input(*self, s.aa, shade),
            alpha_input(*self, s.ab, shade),
            alpha_input(*self, s.ac, shade),
            alpha_input(*self, s.ad, shade),
        )
    }

    // The colour for a shade.
    #[tactic(auto, unfolding(crate::specs::Combine::color_of, crate::specs::Combine::joined, crate::specs::Means::color_call))]
    pub fn color(&self, shade: Rgba) -> Option<Rgba>
        ensures answer { color_means result ≡ color_call self.now shade }
        ensures value { result ≡ color_of self.now shade }
    {
        Some(Rgba {
            r: self.rgb(shade, 0)?,
            g: self.rgb(shade, 1)?,
            b: self.rgb(shade, 2)?,
            a: self.alpha(shade)?,
        })
    }

    // The word of a combiner that gives one constant colour, each channel of it empty or full.
    #[tactic(auto, unfolding(crate::specs::Strict::strict_of, crate::specs::Strict::word_of, crate::specs::Means::strict_call))]
    pub fn strict_color(&self) -> Option<u16>
        ensures answer { strict_means result ≡ strict_call self.now }
        ensures value { result ≡ strict_of self.now }
    {
        if is_flat(self.selectors) {
            strict_word(self.color(full_shade())?)
        } else {
            None
        }
    }
}
