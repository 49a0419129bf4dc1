// The C interface's structs for a mode, a combiner and selectors, and the library's types from plain values and back.
#![tactic(auto)]

ghost use Rattle.std.specs.Prelude.{◌≡◌};
ghost use Rattle.combiner_inputs.specs.Inputs.{color_number, alpha_number};
ghost use Rattle.c_types.specs.Convert.{blend_class_of, z_mode_of, alpha_compare_of, color_in_of, alpha_in_of, mode_of, cycle_from, numbers_of, combiner_from, parts_of, selectors_of, encoding_of, writer_of, bytes_from};

use combiner::Combiner;
use combiner_inputs::{AlphaIn, ColorIn, CombinerSelectors, CycleSel};
use state::{AlphaCompare, BlendClass, RenderMode, Rgba, Rgba8, ZMode};
use words_pack::{FramebufferEncoding, ImageLayout, Writer};

// RenderMode, its enums by their numbers in the order of their declarations: C may pass any number where an enum stands. One that an enum lacks stands for
// its last case: a class above 3 is DualSrc, a z mode above 3 Decal, an alpha_compare above 2 Dither.
#[repr(C)]
#[derive(Clone, Copy)]
pub struct Mode {
    pub cycle_type: u32,
    pub blender_mux: u16,
    pub rgb_dither: u8,
    pub alpha_dither: u8,
    pub cvg_dst: u8,
    pub blend_class: u8,
    pub fallback_class: u8,
    pub z_mode: u8,
    pub alpha_compare: u8,
    pub key_enabled: bool,
    pub image_read: bool,
    pub antialias: bool,
    pub alpha_cvg_select: bool,
    pub color_on_coverage: bool,
    pub force_blend: bool,
    pub non_canonical_blend: bool,
    pub z_source_prim: bool,
    pub z_test: bool,
    pub z_write: bool,
    pub fog: bool,
    pub cvg_x_alpha: bool,
}

// A combiner. The selectors are ca, cb, cc, cd, aa, ab, ac, ad by their numbers, as C may pass any: a colour's above 20 is Noise, an alpha's above 9
// PrimLodFrac.
#[repr(C)]
#[derive(Clone, Copy)]
pub struct Parts {
    pub selectors: [u8; 8],
    pub prim: Rgba,
    pub env: Rgba,
    pub blend: Rgba,
    pub fog: Rgba,
    pub lod: f32,
}

// Both cycles' selectors by their numbers, as in Parts.
#[repr(C)]
#[derive(Clone, Copy)]
pub struct Selectors {
    pub raw_l: u32,
    pub raw_h: u32,
    pub cyc0: [u8; 8],
    pub cyc1: [u8; 8],
}

// ---- enums by their numbers. What a number stands for that an enum lacks is a rule of this interface alone, and no From of the enums' own crates.

#[tactic(auto, unfolding(crate::specs::Convert::blend_class_of))]
fn blend_class(number: u8) -> BlendClass
    ensures { result ≡ blend_class_of number }
{
    match number {
        0 => BlendClass::Replace,
        1 => BlendClass::BlendColor,
        2 => BlendClass::AlphaOver,
        _ => BlendClass::DualSrc,
    }
}

#[tactic(auto, unfolding(crate::specs::Convert::z_mode_of))]
fn z_mode(number: u8) -> ZMode
    ensures { result ≡ z_mode_of number }
{
    match number {
        0 => ZMode::Opa,
        1 => ZMode::Inter,
        2 => ZMode::Xlu,
        _ => ZMode::Decal,
    }
}

#[tactic(auto, unfolding(crate::specs::Convert::alpha_compare_of))]
fn alpha_compare(number: u8) -> AlphaCompare
    ensures { result ≡ alpha_compare_of number }
{
    match number {
        0 => AlphaCompare::None,
        1 => AlphaCompare::Threshold,
        _ => AlphaCompare::Dither,
    }
}

#[tactic(auto, unfolding(crate::specs::Convert::color_in_of))]
fn color_of_number(number: u8) -> ColorIn
    ensures { result ≡ color_in_of number }
{
    match number {
        0 => ColorIn::Combined,
        1 => ColorIn::Texel0,
        2 => ColorIn::Primitive,
        3 => ColorIn::Shade,
        4 => ColorIn::Environment,
        5 => ColorIn::Zero,
        6 => ColorIn::One,
        7 => ColorIn::Texel1,
        8 => ColorIn::KeyCenter,
        9 => ColorIn::K4,
        10 => ColorIn::KeyScale,
        11 => ColorIn::CombinedAlpha,
        12 => ColorIn::Texel0Alpha,
        13 => ColorIn::Texel1Alpha,
        14 => ColorIn::PrimitiveAlpha,
        15 => ColorIn::ShadeAlpha,
        16 => ColorIn::EnvAlpha,
        17 => ColorIn::LodFraction,
        18 => ColorIn::PrimLodFrac,
        19 => ColorIn::K5,
        _ => ColorIn::Noise,
    }
}

#[tactic(auto, unfolding(crate::specs::Convert::alpha_in_of))]
fn alpha_of_number(number: u8) -> AlphaIn
    ensures { result ≡ alpha_in_of number }
{
    match number {
        0 => AlphaIn::Combined,
        1 => AlphaIn::Texel0,
        2 => AlphaIn::Primitive,
        3 => AlphaIn::Shade,
        4 => AlphaIn::Environment,
        5 => AlphaIn::Zero,
        6 => AlphaIn::One,
        7 => AlphaIn::Texel1,
        8 => AlphaIn::LodFraction,
        _ => AlphaIn::PrimLodFrac,
    }
}

// A selector's number. This and the next are functions and no bare casts, for their contracts.
#[tactic(auto, unfolding(combiner_inputs::specs::Inputs::color_number))]
pub fn color_number(color: ColorIn) -> u8
    ensures { result ≡ color_number color }
{
    color as u8
}

#[tactic(auto, unfolding(combiner_inputs::specs::Inputs::alpha_number))]
pub fn alpha_number(alpha: AlphaIn) -> u8
    ensures { result ≡ alpha_number alpha }
{
    alpha as u8
}

// ---- structs

#[tactic(auto, unfolding(crate::specs::Convert::mode_of))]
impl From<Mode> for RenderMode {
    ghost from_gives = { λ mode made. made ≡ mode_of mode };

    fn from(mode: Mode) -> RenderMode {
        RenderMode {
            cycle_type: mode.cycle_type,
            rgb_dither: mode.rgb_dither,
            alpha_dither: mode.alpha_dither,
            key_enabled: mode.key_enabled,
            cvg_dst: mode.cvg_dst,
            image_read: mode.image_read,
            antialias: mode.antialias,
            alpha_cvg_select: mode.alpha_cvg_select,
            color_on_coverage: mode.color_on_coverage,
            blender_mux: mode.blender_mux,
            force_blend: mode.force_blend,
            blend_class: blend_class(mode.blend_class),
            fallback_class: blend_class(mode.fallback_class),
            non_canonical_blend: mode.non_canonical_blend,
            z_source_prim: mode.z_source_prim,
            z_test: mode.z_test,
            z_write: mode.z_write,
            z_mode: z_mode(mode.z_mode),
            fog: mode.fog,
            alpha_compare: alpha_compare(mode.alpha_compare),
            cvg_x_alpha: mode.cvg_x_alpha,
        }
    }
}

// This and the next are functions and no From: both types are other crates'.
#[tactic(auto, unfolding(crate::specs::Convert::cycle_from))]
fn cycle(numbers: [u8; 8]) -> CycleSel
    ensures { result ≡ cycle_from numbers }
{
    CycleSel {
        ca: color_of_number(numbers[0]),
        cb: color_of_number(numbers[1]),
        cc: color_of_number(numbers[2]),
        cd: color_of_number(numbers[3]),
        aa: alpha_of_number(numbers[4]),
        ab: alpha_of_number(numbers[5]),
        ac: alpha_of_number(numbers[6]),
        ad: alpha_of_number(numbers[7]),
    }
}

#[tactic(auto, unfolding(crate::specs::Convert::numbers_of))]
fn numbers(cycle: CycleSel) -> [u8; 8]
    ensures { result ≡ numbers_of cycle }
{
    [
        color_number(cycle.ca),
        color_number(cycle.cb),
        color_number(cycle.cc),
        color_number(cycle.cd),
        alpha_number(cycle.aa),
        alpha_number(cycle.ab),
        alpha_number(cycle.ac),
        alpha_number(cycle.ad),
    ]
}

#[tactic(auto, unfolding(crate::specs::Convert::combiner_from))]
impl From<Parts> for Combiner {
    ghost from_gives = { λ parts made. made ≡ combiner_from parts };

    fn from(parts: Parts) -> Combiner {
        Combiner {
            selectors: cycle(parts.selectors),
            prim: parts.prim,
            env: parts.env,
            blend: parts.blend,
            fog: parts.fog,
            lod: parts.lod,
        }
    }
}

#[tactic(auto, unfolding(crate::specs::Convert::parts_of))]
impl From<Combiner> for Parts {
    ghost from_gives = { λ combiner made. made ≡ parts_of combiner };

    fn from(combiner: Combiner) -> Parts {
        Parts {
            selectors: numbers(combiner.selectors),
            prim: combiner.prim,
            env: combiner.env,
            blend: combiner.blend,
            fog: combiner.fog,
            lod: combiner.lod,
        }
    }
}

#[tactic(auto, unfolding(crate::specs::Convert::selectors_of))]
impl From<CombinerSelectors> for Selectors {
    ghost from_gives = { λ selectors made. made ≡ selectors_of selectors };

    fn from(selectors: CombinerSelectors) -> Selectors {
        Selectors {
            raw_l: selectors.raw_l,
            raw_h: selectors.raw_h,
            cyc0: numbers(selectors.cyc0),
            cyc1: numbers(selectors.cyc1),
        }
    }
}

// ---- the writer and bytes: both types are other crates', so these are functions and no From

pub fn byte_order(big_endian: bool) -> FramebufferEncoding
    ensures { result ≡ encoding_of big_endian }
{
    if big_endian {
        FramebufferEncoding::BigEndian
    } else {
        FramebufferEncoding::Native
    }
}

// Of a colour or a depth, as C says. `Format::writer` (words_read) makes one of a colour's format.
pub fn image_writer(fmt: u8, siz: u8, width: u32, depth: bool) -> Writer
    ensures { result ≡ writer_of fmt siz width depth }
{
    let layout = ImageLayout { fmt, siz, width };
    Writer { layout, depth }
}

// The bytes of a word, the lowest first.
pub fn bytes_of_word(word: u32) -> Rgba8
    ensures { result ≡ bytes_from word }
{
    let [r, g, b, a] = word.to_le_bytes();
    Rgba8 { r, g, b, a }
}
