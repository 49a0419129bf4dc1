// The C interface's calls on the combiner, over plain values. Crate exports gives them their C names.
#![tactic(auto)]

ghost use Rattle.std.specs.Prelude.{◌≡◌};
ghost use Rattle.combiner.specs.Means.{new_call, color_call, strict_call};
ghost use Rattle.c_types.specs.Convert.{mode_of, combiner_from};
ghost use Rattle.c_answers.specs.Answers.{strict_answer, color_answer, combiner_answer};

use c_answers::{ColorAnswer, CombinerAnswer, StrictAnswer};
use c_types::{Mode, Parts};
use combiner::Combiner;
use state::{CombinerUniform, Rgba};

pub fn combiner_new(uniform: CombinerUniform, mode: Mode) -> CombinerAnswer
    ensures { result ≡ combiner_answer (new_call uniform (mode_of mode)) }
{
    Combiner::new(uniform, mode.into()).into()
}

pub fn combiner_color(combiner: Parts, shade: Rgba) -> ColorAnswer
    ensures { result ≡ color_answer (color_call (combiner_from combiner) shade) }
{
    Combiner::from(combiner).color(shade).into()
}

pub fn strict_color(combiner: Parts) -> StrictAnswer
    ensures { result ≡ strict_answer (strict_call (combiner_from combiner)) }
{
    Combiner::from(combiner).strict_color().into()
}
