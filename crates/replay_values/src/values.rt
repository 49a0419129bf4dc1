// Values from a line's words, as the C interface takes them: a struct's fields in their order, a number or a truth value in a word,
// a float by its bits, an enum by its number. A word that is out of its type's range breaks the line's form.
ghost use Rattle.std.specs.Prelude.{◌≡◌};
ghost use Rattle.std.specs.Float.{binary32};
ghost use Rattle.std.specs.Float.Ieee.{of_bits};

use crate::line::{FromLine, Line};
use c_types::{Mode, Parts};
use state::{CombinerUniform, Rgba};
use std::num::f32_from_bits_with_nan;

// The float with these bits, a NaN's too.
pub fn float(bits: u32) -> f32
    ensures { result ≡ of_bits binary32 bits }
{
    f32_from_bits_with_nan(bits)
}

impl FromLine for f32 {
    fn from_line(line: &mut Line<'_>) -> Option<f32> {
        Some(float(line.read()?))
    }
}

impl FromLine for Rgba {
    fn from_line(line: &mut Line<'_>) -> Option<Rgba> {
        Some(Rgba {
            r: line.read()?,
            g: line.read()?,
            b: line.read()?,
            a: line.read()?,
        })
    }
}

impl FromLine for Mode {
    fn from_line(line: &mut Line<'_>) -> Option<Mode> {
        Some(Mode {
            cycle_type: line.read()?,
            blender_mux: line.read()?,
            rgb_dither: line.read()?,
            alpha_dither: line.read()?,
            cvg_dst: line.read()?,
            blend_class: line.below(4)?,
            fallback_class: line.below(4)?,
            z_mode: line.below(4)?,
            alpha_compare: line.below(3)?,
            key_enabled: line.read()?,
            image_read: line.read()?,
            antialias: line.read()?,
            alpha_cvg_select: line.read()?,
            color_on_coverage: line.read()?,
            force_blend: line.read()?,
            non_canonical_blend: line.read()?,
            z_source_prim: line.read()?,
            z_test: line.read()?,
            z_write: line.read()?,
            fog: line.read()?,
            cvg_x_alpha: line.read()?,
        })
    }
}

impl FromLine for CombinerUniform {
    fn from_line(line: &mut Line<'_>) -> Option<CombinerUniform> {
        Some(CombinerUniform {
            combine_l: line.read()?,
            combine_h: line.read()?,
            cycle_type: line.read()?,
            tex_enable: line.read()?,
            blender_mux: line.read()?,
            force_blend: line.read()?,
            alpha_flags: line.read()?,
            alpha_threshold: line.read()?,
            prim: line.read()?,
            env: line.read()?,
            blend_color: line.read()?,
            fog_color: line.read()?,
            inv_tex_size: line.read()?,
            inv_tex1_size: line.read()?,
            lod_params: line.read()?,
            inv_detail_size: line.read()?,
            frame: line.read()?,
            is_rect: line.read()?,
            coverage_slot: line.read()?,
            fill_word: line.read()?,
            fill_siz: line.read()?,
            primitive_depth: line.read()?,
            native_scale: line.read()?,
            raster: line.read()?,
        })
    }
}

// A combiner, with the numbers of four colour inputs and four alpha inputs.
impl FromLine for Parts {
    fn from_line(line: &mut Line<'_>) -> Option<Parts> {
        Some(Parts {
            selectors: [
                line.below(21)?,
                line.below(21)?,
                line.below(21)?,
                line.below(21)?,
                line.below(10)?,
                line.below(10)?,
                line.below(10)?,
                line.below(10)?,
            ],
            prim: line.read()?,
            env: line.read()?,
            blend: line.read()?,
            fog: line.read()?,
            lod: line.read()?,
        })
    }
}
