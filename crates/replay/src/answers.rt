// Whether the port's answer is the recorded one.
use c_answers::{Answer, ColorAnswer, CombinerAnswer, StrictAnswer};
use c_types::{Parts, Selectors};
use replay_values::line::Line;
use state::Rgba;

// What the port answers, and a line records in its next words.
pub trait Recorded {
    // Whether the two are the same, or None where the line has something else.
    fn is_next(&self, line: &mut Line<'_>) -> Option<bool>;
}

impl Recorded for u32 {
    fn is_next(&self, line: &mut Line<'_>) -> Option<bool> {
        Some(line.read::<u32>()? == *self)
    }
}

impl Recorded for bool {
    fn is_next(&self, line: &mut Line<'_>) -> Option<bool> {
        Some(line.read::<bool>()? == *self)
    }
}

// In two's complement.
impl Recorded for i64 {
    fn is_next(&self, line: &mut Line<'_>) -> Option<bool> {
        Some(i64::from(line.read::<u32>()?.cast_signed()) == *self)
    }
}

// Equal, or both NaN.
impl Recorded for f32 {
    fn is_next(&self, line: &mut Line<'_>) -> Option<bool> {
        let recorded: f32 = line.read()?;
        Some(recorded == *self || (recorded.is_nan() && self.is_nan()))
    }
}

impl Recorded for Rgba {
    fn is_next(&self, line: &mut Line<'_>) -> Option<bool> {
        let Rgba { r, g, b, a } = *self;
        Some(r.is_next(line)? & g.is_next(line)? & b.is_next(line)? & a.is_next(line)?)
    }
}

// A combiner's inputs, or a cycle's.
impl Recorded for [u8; 8] {
    fn is_next(&self, line: &mut Line<'_>) -> Option<bool> {
        let mut same = true;
        for selector in self {
            same &= u32::from(*selector).is_next(line)?;
        }
        Some(same)
    }
}

impl Recorded for Selectors {
    fn is_next(&self, line: &mut Line<'_>) -> Option<bool> {
        let Selectors {
            raw_l,
            raw_h,
            cyc0,
            cyc1,
        } = *self;
        let words = raw_l.is_next(line)? & raw_h.is_next(line)?;
        Some(words & cyc0.is_next(line)? & cyc1.is_next(line)?)
    }
}

impl Recorded for Parts {
    fn is_next(&self, line: &mut Line<'_>) -> Option<bool> {
        let Parts {
            selectors,
            prim,
            env,
            blend,
            fog,
            lod,
        } = *self;
        let colors = selectors.is_next(line)? & prim.is_next(line)? & env.is_next(line)?;
        Some(colors & blend.is_next(line)? & fog.is_next(line)? & lod.is_next(line)?)
    }
}

impl Recorded for Answer {
    fn is_next(&self, line: &mut Line<'_>) -> Option<bool> {
        Some(self.number.is_next(line)? & self.value.is_next(line)?)
    }
}

impl Recorded for ColorAnswer {
    fn is_next(&self, line: &mut Line<'_>) -> Option<bool> {
        Some(self.some.is_next(line)? & self.rgba.is_next(line)?)
    }
}

impl Recorded for StrictAnswer {
    fn is_next(&self, line: &mut Line<'_>) -> Option<bool> {
        Some(self.some.is_next(line)? & u32::from(self.word).is_next(line)?)
    }
}

impl Recorded for CombinerAnswer {
    fn is_next(&self, line: &mut Line<'_>) -> Option<bool> {
        Some(self.some.is_next(line)? & self.combiner.is_next(line)?)
    }
}
