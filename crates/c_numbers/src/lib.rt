// The C interface's calls on selectors and on floats, over plain values. Crate exports gives them their C names.
#![tactic(auto)]

ghost use Rattle.std.specs.Prelude.{◌≡◌};
ghost use Rattle.num_float.specs.Whole.{whole, floor, ceil, index_cap};
ghost use Rattle.combiner_inputs.specs.Combine.{select, color_a, color_b, color_c, color_d, alpha_abd, alpha_c, combine_of};
ghost use Rattle.combiner_inputs.specs.Inputs.{color_number, alpha_number};
ghost use Rattle.words_pack.specs.Depth.{pack_depth_of};
ghost use Rattle.c_types.specs.Convert.{selectors_of};

use c_types::{Selectors, alpha_number, color_number};
use combiner_inputs::{AlphaIn, ColorIn};

// ---- selectors: combiner.rs

pub fn color_a(index: u32) -> u32
    ensures { result ≡ color_number (select color_a ColorIn.Zero 4 index) }
{
    color_number(combiner_inputs::color_a(index)) as u32
}

pub fn color_b(index: u32) -> u32
    ensures { result ≡ color_number (select color_b ColorIn.Zero 4 index) }
{
    color_number(combiner_inputs::color_b(index)) as u32
}

pub fn color_c(index: u32) -> u32
    ensures { result ≡ color_number (select color_c ColorIn.Zero 5 index) }
{
    color_number(combiner_inputs::color_c(index)) as u32
}

pub fn color_d(index: u32) -> u32
    ensures { result ≡ color_number (select color_d ColorIn.Zero 3 index) }
{
    color_number(combiner_inputs::color_d(index)) as u32
}

pub fn alpha_abd(index: u32) -> u32
    ensures { result ≡ alpha_number (select alpha_abd AlphaIn.Zero 3 index) }
{
    alpha_number(combiner_inputs::alpha_abd(index)) as u32
}

pub fn alpha_c(index: u32) -> u32
    ensures { result ≡ alpha_number (select alpha_c AlphaIn.Zero 3 index) }
{
    alpha_number(combiner_inputs::alpha_c(index)) as u32
}

pub fn decode_combine(w0: u32, w1: u32) -> Selectors
    ensures { result ≡ selectors_of (combine_of w0 w1) }
{
    combiner_inputs::decode_combine(w0, w1).into()
}

// ---- floats to whole numbers

pub fn floor_index(x: f32) -> u32
    ensures { result ≡ whole floor index_cap x }
{
    num_float::floor_index(x) as u32
}

pub fn ceil_index(x: f32) -> u32
    ensures { result ≡ whole ceil index_cap x }
{
    num_float::ceil_index(x) as u32
}

pub fn pack_depth(depth: f32) -> u32
    ensures { result ≡ pack_depth_of depth }
{
    words_pack::pack_depth(depth) as u32
}
