// The C interface's structs for answers, and the library's answers as these.
#![tactic(auto)]

ghost use Rattle.std.specs.Prelude.{◌≡◌, ℕ, Result, Ok, Err, refl};
ghost use Rattle.refused.specs.declared.Refusal.{Refusal};
ghost use Rattle.writeback_pixel.specs.Refusal.{Outcome, accepted, turned_away};
ghost use Rattle.writeback_pixel.specs.Calls.{destination_means, answer_means, blend_means, pack_color_means, encode_means};
ghost use Rattle.combiner.specs.Means.{no_color, no_combiner, made_means, color_means, strict_means};
ghost use Rattle.c_types.specs.Convert.{parts_of};
ghost use Rattle.c_answers.specs.Answers.{same, bit, four_bytes, two_bytes, answer_of, strict_answer, color_answer, combiner_answer};

use c_types::Parts;
use combiner::Combiner;
use refused::Refusal;
use state::{Rgba, Rgba8};
use words_pack::Bytes2;

// The number (docs/RULES.md) and the value: a coverage, 1 for yes, a word, or bytes with the first lowest. The value stands beside the number, as C has no Result.
#[repr(C)]
#[derive(Clone, Copy)]
pub struct Answer {
    pub number: u32,
    pub value: u32,
}

// ---- what may be none, as C has no Option: a flag, and the value or zeros

// A colour.
#[repr(C)]
#[derive(Clone, Copy)]
pub struct ColorAnswer {
    pub some: bool,
    pub rgba: Rgba,
}

// A word.
#[repr(C)]
#[derive(Clone, Copy)]
pub struct StrictAnswer {
    pub some: bool,
    pub word: u16,
}

// A combiner.
#[repr(C)]
#[derive(Clone, Copy)]
pub struct CombinerAnswer {
    pub some: bool,
    pub combiner: Parts,
}

impl Answer {
    fn accepted(value: u32) -> Answer
        ensures { result ≡ answer_of same (accepted value) }
    {
        Answer { number: 0, value }
    }

    pub fn turned_away(why: Refusal) -> Answer
        ensures { result ≡ answer_of same (turned_away why 0) }
    {
        Answer {
            number: why.number() as u32,
            value: 0,
        }
    }
}

// ---- of single-pixel calls

// What a value is as one word, and what a call that gives one means. A refusal's number comes with a value whose word is 0.
pub trait ToWord {
    ghost word_of: { Self → ℕ };

    ghost means: { Result Self Refusal → Outcome Self };

    fn to_word(self) -> u32
        ensures { result ≡ word_of self };

    ghost given: { (value : Self) → means (Ok value) ≡ accepted value };

    ghost withheld: { (why : Refusal) → answer_of word_of (means (Err why)) ≡ answer_of same (turned_away why 0) };
}

impl ToWord for bool {
    ghost word_of = { bit };

    ghost means = { answer_means };

    fn to_word(self) -> u32 {
        self as u32 // 1 for yes
    }

    ghost given = { λ value. refl };

    ghost withheld = { λ why. refl };
}

impl ToWord for u8 {
    ghost word_of = { same };

    ghost means = { destination_means };

    fn to_word(self) -> u32 {
        self as u32 // a coverage
    }

    ghost given = { λ value. refl };

    ghost withheld = { λ why. refl };
}

impl ToWord for u16 {
    ghost word_of = { same };

    ghost means = { pack_color_means };

    fn to_word(self) -> u32 {
        self as u32 // a colour's word
    }

    ghost given = { λ value. refl };

    ghost withheld = { λ why. refl };
}

impl ToWord for Rgba8 {
    ghost word_of = { four_bytes };

    ghost means = { blend_means };

    fn to_word(self) -> u32 {
        u32::from_le_bytes([self.r, self.g, self.b, self.a])
    }

    ghost given = { λ value. refl };

    ghost withheld = { λ why. refl };
}

impl ToWord for Bytes2 {
    ghost word_of = { two_bytes };

    ghost means = { encode_means };

    fn to_word(self) -> u32 {
        u16::from_le_bytes([self.0, self.1]) as u32
    }

    ghost given = { λ value. refl };

    ghost withheld = { λ why. refl };
}

impl<T: ToWord> From<Result<T, Refusal>> for Answer {
    ghost from_gives = { λ told answer. answer ≡ answer_of T.word_of (T.means told) };

    fn from(told: Result<T, Refusal>) -> Answer {
        match told {
            Ok(value) => Answer::accepted(value.to_word()),
            Err(why) => Answer::turned_away(why),
        }
    }
}

// ---- of the combiner

impl From<Option<u16>> for StrictAnswer {
    ghost from_gives = { λ word answer. answer ≡ strict_answer (strict_means word) };

    fn from(word: Option<u16>) -> StrictAnswer {
        StrictAnswer {
            some: word.is_some(),
            word: word.unwrap_or(0),
        }
    }
}

// What stands in an answer for a colour that is not there. `color_or_zeros` (blender) has the same zeros for another need: what is passed of a memory that is not known.
pub fn no_color() -> Rgba
    ensures { result ≡ no_color }
{
    Rgba {
        r: 0.0,
        g: 0.0,
        b: 0.0,
        a: 0.0,
    }
}

impl From<Option<Rgba>> for ColorAnswer {
    ghost from_gives = { λ color answer. answer ≡ color_answer (color_means color) };

    fn from(color: Option<Rgba>) -> ColorAnswer {
        ColorAnswer {
            some: color.is_some(),
            rgba: color.unwrap_or(no_color()),
        }
    }
}

#[tactic(auto, unfolding(c_types::specs::Convert::parts_of, c_types::specs::Convert::numbers_of, combiner_inputs::specs::Inputs::color_number, combiner_inputs::specs::Inputs::alpha_number))]
fn no_parts() -> Parts
    ensures { result ≡ parts_of no_combiner }
{
    let zero = no_color();
    Parts {
        selectors: [0; 8],
        prim: zero,
        env: zero,
        blend: zero,
        fog: zero,
        lod: 0.0,
    }
}

impl From<Option<Combiner>> for CombinerAnswer {
    ghost from_gives = { λ made answer. answer ≡ combiner_answer (made_means made) };

    fn from(made: Option<Combiner>) -> CombinerAnswer {
        CombinerAnswer {
            some: made.is_some(),
            combiner: made.map_or(no_parts(), Parts::from),
        }
    }
}
