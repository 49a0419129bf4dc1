// How many calls there were and how many of them agree.
use replay_calls::call::Call;
use replay_values::counts::Counts;
use std::fmt;

#[derive(Clone, Copy, Default)]
pub struct Tally {
    draw: Counts,
    read: Counts,
    mask: Counts,
    masks: Counts,
    pub frames: Counts, // looked at after a call
    pub others: Counts, // lines of no known form, of which none agrees
}

impl Tally {
    pub fn of(&mut self, call: Call) -> &mut Counts {
        match call {
            Call::Draw => &mut self.draw,
            Call::Read => &mut self.read,
            Call::Mask => &mut self.mask,
            Call::Masks => &mut self.masks,
        }
    }

    fn all_agree(&self) -> bool {
        let Tally {
            draw,
            read,
            mask,
            masks,
            frames,
            others,
        } = *self;
        [draw, read, mask, masks, frames, others]
            .iter()
            .all(|counts| counts.all_agree())
    }
}

impl fmt::Display for Tally {
    fn fmt<W: fmt::Write>(&self, f: &mut fmt::Formatter<W>) -> fmt::Result {
        let Tally {
            draw,
            read,
            mask,
            masks,
            frames,
            ..
        } = *self;
        writeln!(f, "draw {draw}\nread {read}\nmask {mask}")?;
        writeln!(f, "masks {masks}\nframes {frames}")?;
        if self.all_agree() {
            writeln!(f, "all agree")
        } else {
            writeln!(f, "not all agree")
        }
    }
}
