// Whether a combiner's colour turns on the shade. Where it does not, one colour serves every pixel of a draw.
ghost use Rattle.std.specs.Prelude.{◌≡◌};
ghost use Rattle.combiner_resolved.specs.Shaded.{shade_color, shade_alpha, shade_used};

use combiner::Combiner;
use combiner_inputs::{AlphaIn, ColorIn};

#[tactic(auto, unfolding(crate::specs::Shaded::shade_color, combiner_inputs::specs::Inputs::color_number))]
fn color_is_shade(input: ColorIn) -> bool
    ensures { result ≡ shade_color input }
{
    matches!(input, ColorIn::Shade | ColorIn::ShadeAlpha)
}

// raster_admitted's `is_shade` is the same comparison, under a definition of its own, which is to be believed.
#[tactic(auto, unfolding(crate::specs::Shaded::shade_alpha, combiner_inputs::specs::Inputs::alpha_number))]
pub fn alpha_is_shade(input: AlphaIn) -> bool
    ensures { result ≡ shade_alpha input }
{
    input == AlphaIn::Shade
}

// Whether one of the eight selectors reads the shade.
#[tactic(auto, unfolding(crate::specs::Shaded::shade_used))]
pub fn uses_shade(combiner: Combiner) -> bool
    ensures { result ≡ shade_used combiner }
{
    let s = combiner.selectors;
    let color = color_is_shade(s.ca)
        || color_is_shade(s.cb)
        || color_is_shade(s.cc)
        || color_is_shade(s.cd);
    let alpha = alpha_is_shade(s.aa)
        || alpha_is_shade(s.ab)
        || alpha_is_shade(s.ac)
        || alpha_is_shade(s.ad);
    color || alpha
}
