// Selector decoding of combiner.rs: which input each slot of a combine word names.
#![tactic(auto)]

ghost use Rattle.std.specs.Prelude.{◌≡◌};
ghost use Rattle.combiner_inputs.specs.Combine.{select, color_a, color_b, color_c, color_d, alpha_abd, alpha_c, combine_of};
ghost use Rattle.combiner_inputs.specs.Cycles.{cycle_of};
ghost use Rattle.combiner_inputs.specs.Inputs.{color_number, alpha_number};

use num_bits::bits;

// What a colour slot can read.
#[derive(Clone, Copy, Debug, PartialEq, Eq)]
pub enum ColorIn {
    Combined,
    Texel0,
    Primitive,
    Shade,
    Environment,
    Zero,
    One,
    Texel1,
    KeyCenter,
    K4,
    KeyScale,
    CombinedAlpha,
    Texel0Alpha,
    Texel1Alpha,
    PrimitiveAlpha,
    ShadeAlpha,
    EnvAlpha,
    LodFraction,
    PrimLodFrac,
    K5,
    Noise,
}

// What an alpha slot can read.
#[derive(Clone, Copy, Debug, PartialEq, Eq)]
pub enum AlphaIn {
    Combined,
    Texel0,
    Primitive,
    Shade,
    Environment,
    Zero,
    One,
    Texel1,
    LodFraction,
    PrimLodFrac,
}

// One cycle's selectors: each channel is (a - b) * c + d.
#[derive(Clone, Copy, Debug, PartialEq, Eq)]
pub struct CycleSel {
    pub ca: ColorIn,
    pub cb: ColorIn,
    pub cc: ColorIn,
    pub cd: ColorIn,
    pub aa: AlphaIn,
    pub ab: AlphaIn,
    pub ac: AlphaIn,
    pub ad: AlphaIn,
}

// Both cycles' selectors, and the two words that they were taken from.
#[derive(Clone, Copy, Debug, PartialEq, Eq)]
pub struct CombinerSelectors {
    pub raw_l: u32,
    pub raw_h: u32,
    pub cyc0: CycleSel,
    pub cyc1: CycleSel,
}

// ---- a slot's inputs by the number in its field: one table for each slot, as the console's papers have them

// The colour slot a, of four bits.
#[tactic(auto, unfolding(crate::specs::Combine::color_a, crate::specs::Combine::select))]
pub fn color_a(idx: u32) -> ColorIn
    ensures answer { color_number result ≡ color_number (select color_a ColorIn.Zero 4 idx) }
    ensures value { result ≡ select color_a ColorIn.Zero 4 idx }
{
    match idx & 0xF {
        0 => ColorIn::Combined,
        1 => ColorIn::Texel0,
        2 => ColorIn::Texel1,
        3 => ColorIn::Primitive,
        4 => ColorIn::Shade,
        5 => ColorIn::Environment,
        6 => ColorIn::One,
        7 => ColorIn::Noise,
        _ => ColorIn::Zero, // 8 to 15
    }
}

// The colour slot b, of four bits.
#[tactic(auto, unfolding(crate::specs::Combine::color_b, crate::specs::Combine::select))]
pub fn color_b(idx: u32) -> ColorIn
    ensures answer { color_number result ≡ color_number (select color_b ColorIn.Zero 4 idx) }
    ensures value { result ≡ select color_b ColorIn.Zero 4 idx }
{
    match idx & 0xF {
        0 => ColorIn::Combined,
        1 => ColorIn::Texel0,
        2 => ColorIn::Texel1,
        3 => ColorIn::Primitive,
        4 => ColorIn::Shade,
        5 => ColorIn::Environment,
        6 => ColorIn::KeyCenter,
        7 => ColorIn::K4,
        _ => ColorIn::Zero, // 8 to 15
    }
}

// The colour slot c, of five bits.
#[tactic(auto, unfolding(crate::specs::Combine::color_c, crate::specs::Combine::select))]
pub fn color_c(idx: u32) -> ColorIn
    ensures answer { color_number result ≡ color_number (select color_c ColorIn.Zero 5 idx) }
    ensures value { result ≡ select color_c ColorIn.Zero 5 idx }
{
    match idx & 0x1F {
        0 => ColorIn::Combined,
        1 => ColorIn::Texel0,
        2 => ColorIn::Texel1,
        3 => ColorIn::Primitive,
        4 => ColorIn::Shade,
        5 => ColorIn::Environment,
        6 => ColorIn::KeyScale,
        7 => ColorIn::CombinedAlpha,
        8 => ColorIn::Texel0Alpha,
        9 => ColorIn::Texel1Alpha,
        10 => ColorIn::PrimitiveAlpha,
        11 => ColorIn::ShadeAlpha,
        12 => ColorIn::EnvAlpha,
        13 => ColorIn::LodFraction,
        14 => ColorIn::PrimLodFrac,
        15 => ColorIn::K5,
        _ => ColorIn::Zero, // 16 to 31
    }
}

// The colour slot d, of three bits.
#[tactic(auto, unfolding(crate::specs::Combine::color_d, crate::specs::Combine::select))]
pub fn color_d(idx: u32) -> ColorIn
    ensures answer { color_number result ≡ color_number (select color_d ColorIn.Zero 3 idx) }
    ensures value { result ≡ select color_d ColorIn.Zero 3 idx }
{
    match idx & 0x7 {
        0 => ColorIn::Combined,
        1 => ColorIn::Texel0,
        2 => ColorIn::Texel1,
        3 => ColorIn::Primitive,
        4 => ColorIn::Shade,
        5 => ColorIn::Environment,
        6 => ColorIn::One,
        _ => ColorIn::Zero, // 7
    }
}

// The alpha slots a, b and d, of three bits.
#[tactic(auto, unfolding(crate::specs::Combine::alpha_abd, crate::specs::Combine::select))]
pub fn alpha_abd(idx: u32) -> AlphaIn
    ensures answer { alpha_number result ≡ alpha_number (select alpha_abd AlphaIn.Zero 3 idx) }
    ensures value { result ≡ select alpha_abd AlphaIn.Zero 3 idx }
{
    match idx & 0x7 {
        0 => AlphaIn::Combined,
        1 => AlphaIn::Texel0,
        2 => AlphaIn::Texel1,
        3 => AlphaIn::Primitive,
        4 => AlphaIn::Shade,
        5 => AlphaIn::Environment,
        6 => AlphaIn::One,
        _ => AlphaIn::Zero, // 7
    }
}

// The alpha slot c, of three bits.
#[tactic(auto, unfolding(crate::specs::Combine::alpha_c, crate::specs::Combine::select))]
pub fn alpha_c(idx: u32) -> AlphaIn
    ensures answer { alpha_number result ≡ alpha_number (select alpha_c AlphaIn.Zero 3 idx) }
    ensures value { result ≡ select alpha_c AlphaIn.Zero 3 idx }
{
    match idx & 0x7 {
        0 => AlphaIn::LodFraction,
        1 => AlphaIn::Texel0,
        2 => AlphaIn::Texel1,
        3 => AlphaIn::Primitive,
        4 => AlphaIn::Shade,
        5 => AlphaIn::Environment,
        6 => AlphaIn::PrimLodFrac,
        _ => AlphaIn::Zero, // 7
    }
}

// One cycle's selectors. A slot's field has a place of its own in each cycle, in the upper word l or in the lower word h. One function by `second`, so that one law serves both.
fn decode_cycle(l: u32, h: u32, second: bool) -> CycleSel
    ensures { result ≡ cycle_of second l h }
{
    if !second {
        CycleSel {
            ca: color_a(bits(l, 20, 4)),
            cb: color_b(bits(h, 28, 4)),
            cc: color_c(bits(l, 15, 5)),
            cd: color_d(bits(h, 15, 3)),
            aa: alpha_abd(bits(l, 12, 3)),
            ab: alpha_abd(bits(h, 12, 3)),
            ac: alpha_c(bits(l, 9, 3)),
            ad: alpha_abd(bits(h, 9, 3)),
        }
    } else {
        CycleSel {
            ca: color_a(bits(l, 5, 4)),
            cb: color_b(bits(h, 24, 4)),
            cc: color_c(bits(l, 0, 5)),
            cd: color_d(bits(h, 6, 3)),
            aa: alpha_abd(bits(h, 21, 3)),
            ab: alpha_abd(bits(h, 3, 3)),
            ac: alpha_c(bits(h, 18, 3)),
            ad: alpha_abd(bits(h, 0, 3)),
        }
    }
}

// Both cycles' selectors from the two words of the command, the upper word first.
pub fn decode_combine(w0: u32, w1: u32) -> CombinerSelectors
    ensures { result ≡ combine_of w0 w1 }
{
    CombinerSelectors {
        raw_l: w0,
        raw_h: w1,
        cyc0: decode_cycle(w0, w1, false),
        cyc1: decode_cycle(w0, w1, true),
    }
}
