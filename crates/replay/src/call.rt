// Each call of the C interface: its name, and the port asked with a line's arguments.
use crate::answers::Recorded;
use replay_values::line::Line;

#[derive(Clone, Copy)]
pub enum Call {
    ColorA,
    ColorB,
    ColorC,
    ColorD,
    AlphaAbd,
    AlphaC,
    DecodeCombine,
    Clamp,
    ByteOf,
    Quarter,
    FloorIndex,
    CeilIndex,
    IsFinite,
    LeTotal,
    CombinerNew,
    CombinerColor,
    StrictColor,
    Destination,
    ColorKnown,
    Blend,
    PackColor,
    PackDepth,
    Supported,
    PixelBytes,
    Encode,
}

// Holds an answer against the one that ends a line, behind ` =`.
fn held<A: Recorded>(answer: &A, line: &mut Line<'_>) -> Option<bool> {
    line.skip(b" =")?;
    let same = answer.is_next(line)?;
    Some(same && line.has_ended())
}

impl Call {
    // In the order in which they are printed.
    pub const ALL: [Call; 25] = [
        Call::ColorA,
        Call::ColorB,
        Call::ColorC,
        Call::ColorD,
        Call::AlphaAbd,
        Call::AlphaC,
        Call::DecodeCombine,
        Call::Clamp,
        Call::ByteOf,
        Call::Quarter,
        Call::FloorIndex,
        Call::CeilIndex,
        Call::IsFinite,
        Call::LeTotal,
        Call::CombinerNew,
        Call::CombinerColor,
        Call::StrictColor,
        Call::Destination,
        Call::ColorKnown,
        Call::Blend,
        Call::PackColor,
        Call::PackDepth,
        Call::Supported,
        Call::PixelBytes,
        Call::Encode,
    ];

    pub fn name(self) -> &'static str {
        match self {
            Call::ColorA => "color_a",
            Call::ColorB => "color_b",
            Call::ColorC => "color_c",
            Call::ColorD => "color_d",
            Call::AlphaAbd => "alpha_abd",
            Call::AlphaC => "alpha_c",
            Call::DecodeCombine => "decode_combine",
            Call::Clamp => "clamp",
            Call::ByteOf => "byte_of",
            Call::Quarter => "quarter",
            Call::FloorIndex => "floor_index",
            Call::CeilIndex => "ceil_index",
            Call::IsFinite => "is_finite",
            Call::LeTotal => "le_total",
            Call::CombinerNew => "combiner_new",
            Call::CombinerColor => "combiner_color",
            Call::StrictColor => "strict_color",
            Call::Destination => "destination",
            Call::ColorKnown => "color_known",
            Call::Blend => "blend",
            Call::PackColor => "pack_color",
            Call::PackDepth => "pack_depth",
            Call::Supported => "supported",
            Call::PixelBytes => "pixel_bytes",
            Call::Encode => "encode",
        }
    }

    // Whether the port answers a line's arguments as the line does, or None for a line of another form.
    // It is one match, an arm a call, so that the compiler refuses a call that has no arm; a match for each family of calls would need a default arm.
    pub fn agrees(self, mut line: Line<'_>) -> Option<bool> {
        let s = &mut line;
        match self {
            Call::ColorA => held(&c_numbers::color_a(s.read()?), s),
            Call::ColorB => held(&c_numbers::color_b(s.read()?), s),
            Call::ColorC => held(&c_numbers::color_c(s.read()?), s),
            Call::ColorD => held(&c_numbers::color_d(s.read()?), s),
            Call::AlphaAbd => held(&c_numbers::alpha_abd(s.read()?), s),
            Call::AlphaC => held(&c_numbers::alpha_c(s.read()?), s),
            Call::DecodeCombine => held(&c_numbers::decode_combine(s.read()?, s.read()?), s),
            Call::Clamp => held(&num_float::clamp01(s.read()?), s),
            Call::ByteOf => held(&u32::from(num_float::byte_of(s.read()?)), s),
            Call::Quarter => held(&num_float::quarter(s.read()?), s),
            Call::FloorIndex => held(&c_numbers::floor_index(s.read()?), s),
            Call::CeilIndex => held(&c_numbers::ceil_index(s.read()?), s),
            Call::IsFinite => held(&num_float::is_finite(s.read()?), s),
            Call::LeTotal => held(&num_float::le_total(s.read()?, s.read()?), s),
            Call::CombinerNew => held(&c_combiner::combiner_new(s.read()?, s.read()?), s),
            Call::CombinerColor => held(&c_combiner::combiner_color(s.read()?, s.read()?), s),
            Call::StrictColor => held(&c_combiner::strict_color(s.read()?), s),
            Call::Destination => held(&c_pixel::destination(s.read()?, s.read()?, s.read()?), s),
            Call::ColorKnown => held(
                &c_pixel::color_known(
                    s.read()?,
                    s.read()?,
                    s.read()?,
                    s.read()?,
                    s.read()?,
                    s.read()?,
                ),
                s,
            ),
            Call::Blend => held(
                &c_pixel::blend(
                    s.read()?,
                    s.read()?,
                    s.read()?,
                    s.read()?,
                    s.read()?,
                    s.read()?,
                    s.read()?,
                ),
                s,
            ),
            Call::PackColor => held(&c_pixel::pack_color(s.read()?, s.read()?, s.read()?), s),
            Call::PackDepth => held(&c_numbers::pack_depth(s.read()?), s),
            Call::Supported => held(
                &c_pixel::supported(s.read()?, s.read()?, s.read()?, s.read()?),
                s,
            ),
            Call::PixelBytes => held(
                &c_pixel::pixel_bytes(s.read()?, s.read()?, s.read()?, s.read()?),
                s,
            ),
            Call::Encode => held(
                &c_pixel::encode(
                    s.read()?,
                    s.read()?,
                    s.read()?,
                    s.read()?,
                    s.read()?,
                    s.read()?,
                    s.read()?,
                    s.read()?,
                    s.read()?,
                    s.read()?,
                    s.read()?,
                ),
                s,
            ),
        }
    }
}
