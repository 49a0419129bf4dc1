// A combiner resolved once for a draw, so that a pixel looks at no selector: what each pair of selectors names is a constant of the draw or a part of the
// shade, and one match chooses all four channels of it.
#![tactic(auto)]

ghost use Rattle.std.specs.Prelude.{◌≡◌};
ghost use Rattle.combiner_resolved.specs.Resolved.{input_by, channels_of, mixed_by, shade_flag, shade_alpha_flag, kind_of, operand_of, resolved_of};
ghost use Rattle.combiner_resolved.specs.Shaded.{shade_alpha};

use combiner::Combiner;
use combiner_inputs::{AlphaIn, ColorIn};
use state::Rgba;

pub mod shaded; // whether the colour turns on the shade

// Where an operand's colour and its alpha come from. A name of two words says the colour's place first, then alpha's.
#[derive(Clone, Copy, Debug, PartialEq, Eq)]
pub enum Kind {
    Constant, // both from the constant
    ConstantShade, // the constant's colour, the shade's alpha
    ShadeConstant, // the shade's colour, the constant's alpha
    Shade, // both from the shade
    AlphaConstant, // the shade's alpha as red, green and blue, the constant's alpha
    Alpha, // the shade's alpha in all four channels
}

// One of the inputs a, b, c and d. The constant stands beside the kind, though two kinds do not read it: each channel's source is then told by one match.
#[derive(Clone, Copy)]
pub struct Operand {
    pub kind: Kind,
    pub constant: Rgba,
}

// Each channel is (a - b) * c + d.
#[derive(Clone, Copy)]
pub struct Resolved {
    pub a: Operand,
    pub b: Operand,
    pub c: Operand,
    pub d: Operand,
}

impl Operand {
    // Every arm names its fields, though the match is long so: a copy of a whole struct would go through memory.
    #[tactic(auto, unfolding(crate::specs::Resolved::input_by, crate::specs::Resolved::input_of))]
    fn input(self, shade: Rgba) -> Rgba
        ensures { result ≡ input_by self shade }
    {
        let kind = self.kind;
        let k = self.constant;
        match kind {
            Kind::Constant => Rgba {
                r: k.r,
                g: k.g,
                b: k.b,
                a: k.a,
            },
            Kind::ConstantShade => Rgba {
                r: k.r,
                g: k.g,
                b: k.b,
                a: shade.a,
            },
            Kind::ShadeConstant => Rgba {
                r: shade.r,
                g: shade.g,
                b: shade.b,
                a: k.a,
            },
            Kind::Shade => Rgba {
                r: shade.r,
                g: shade.g,
                b: shade.b,
                a: shade.a,
            },
            Kind::AlphaConstant => Rgba {
                r: shade.a,
                g: shade.a,
                b: shade.a,
                a: k.a,
            },
            Kind::Alpha => Rgba {
                r: shade.a,
                g: shade.a,
                b: shade.a,
                a: shade.a,
            },
        }
    }
}

// The equation in each channel.
#[tactic(auto, unfolding(crate::specs::Resolved::channels_of))]
fn channels(a: Rgba, b: Rgba, c: Rgba, d: Rgba) -> Rgba
    ensures { result ≡ channels_of a b c d }
{
    Rgba {
        r: num_float::channel(a.r, b.r, c.r, d.r),
        g: num_float::channel(a.g, b.g, c.g, d.g),
        b: num_float::channel(a.b, b.b, c.b, d.b),
        a: num_float::channel(a.a, b.a, c.a, d.a),
    }
}

impl Resolved {
    // The colour for a shade.
    #[tactic(auto, unfolding(crate::specs::Resolved::mixed_by))]
    pub fn color(self, shade: Rgba) -> Rgba
        ensures { result ≡ mixed_by self shade }
    {
        channels(
            self.a.input(shade),
            self.b.input(shade),
            self.c.input(shade),
            self.d.input(shade),
        )
    }
}

// Where the colour comes from, and where alpha does.
#[tactic(auto, unfolding(crate::specs::Resolved::kind_of, crate::specs::Resolved::shade_flag, crate::specs::Resolved::shade_alpha_flag, crate::specs::Shaded::shade_alpha, combiner_inputs::specs::Inputs::color_number, combiner_inputs::specs::Inputs::alpha_number))]
fn kind_of(color: ColorIn, alpha: AlphaIn) -> Kind
    ensures { result ≡ kind_of (shade_flag color) (shade_alpha_flag color) (shade_alpha alpha) }
{
    match (color, alpha) {
        (ColorIn::Shade, AlphaIn::Shade) => Kind::Shade,
        (ColorIn::Shade, _) => Kind::ShadeConstant,
        (ColorIn::ShadeAlpha, AlphaIn::Shade) => Kind::Alpha,
        (ColorIn::ShadeAlpha, _) => Kind::AlphaConstant,
        (_, AlphaIn::Shade) => Kind::ConstantShade,
        _ => Kind::Constant,
    }
}

// What a colour selector and an alpha selector name. A constant turns on no shade, so any shade tells it; an input that is not there counts as 0.0.
#[tactic(auto, unfolding(crate::specs::Resolved::operand_of, crate::specs::Resolved::or_zero))]
fn operand_of(combiner: Combiner, color: ColorIn, alpha: AlphaIn) -> Operand
    ensures { result ≡ operand_of combiner color alpha }
{
    let full = combiner::full_shade();
    Operand {
        kind: kind_of(color, alpha),
        constant: Rgba {
            r: combiner::color_input(combiner, color, full, 0).unwrap_or(0.0),
            g: combiner::color_input(combiner, color, full, 1).unwrap_or(0.0),
            b: combiner::color_input(combiner, color, full, 2).unwrap_or(0.0),
            a: combiner::alpha_input(combiner, alpha, full).unwrap_or(0.0),
        },
    }
}

// The combiner resolved for a draw.
#[tactic(auto, unfolding(crate::specs::Resolved::resolved_of))]
pub fn resolve(combiner: Combiner) -> Resolved
    ensures { result ≡ resolved_of combiner }
{
    let s = combiner.selectors;
    Resolved {
        a: operand_of(combiner, s.ca, s.aa),
        b: operand_of(combiner, s.cb, s.ab),
        c: operand_of(combiner, s.cc, s.ac),
        d: operand_of(combiner, s.cd, s.ad),
    }
}
