// A recorded list: a frame, and what its calls left of it.
ghost use Rattle.std.specs.Prelude.{◌≡◌, true, false, IfNone, IsNone, IsSome, MatchOption};

use crate::call::Call;
use crate::lent::Frame;
use crate::place::Place;
use replay_values::line::Line;

#[derive(Drop)]
pub struct List<'a> {
    frame: Frame,
    recorded: Option<Place<'a>>, // of the three slices, as the last call left them; none before a list
}

// Whether a call's answer is the recorded one, and the frame after it.
#[derive(Clone, Copy)]
pub struct Agreed {
    pub answer: bool,
    pub frame: bool,
}

impl<'a> List<'a> {
    // No list yet.
    pub fn new() -> List<'a>
        ensures { IsNone result.recorded }
    {
        List {
            frame: Frame::new(),
            recorded: None,
        }
    }

    // Goes on with the list that a line begins. Whether it begins one: otherwise there is none.
    pub fn begin(&mut self, mut line: Place<'a>) -> bool
        ensures { MatchOption self.new.recorded (result ≡ false) (λ _. result ≡ true) }
    {
        let _ = line.skip(b"frame");
        let width = line.read().unwrap_or(0);
        let height = line.read().unwrap_or(0);
        let recorded = line;
        let taken = self.frame.take(width, height, &mut line);
        let begins = taken.is_some() && line.has_ended();
        self.recorded = begins.then_some(recorded);
        begins
    }

    // Asks for a call, whose arguments stand in a line without a text around it. Nothing agrees where there is no list.
    pub fn replay(&mut self, call: Call, line: Line<'a>, engine: u8) -> Agreed
        ensures none { IfNone self.old.recorded ((result.answer ≡ false) × (result.frame ≡ false)) }
        ensures list { MatchOption self.old.recorded (IsNone self.new.recorded) (λ _. IsSome self.new.recorded) }
    {
        self.replay_at(call, Place::alone(line), engine)
            .unwrap_or(Agreed {
                answer: false,
                frame: false,
            })
    }

    // Asks for a call, whose arguments a line has, if there is a list. Only a draw has slices of its own: the others leave the frame as
    // it was.
    pub fn replay_at(&mut self, call: Call, mut line: Place<'a>, engine: u8) -> Option<Agreed>
        ensures { MatchOption self.old.recorded (IsNone result × IsNone self.new.recorded) (λ _. IsSome result × IsSome self.new.recorded) }
    {
        let mut left = self.recorded?;
        let agrees = call.agrees(&mut line, engine, &mut self.frame);
        let draws = call == Call::Draw;
        if draws {
            if agrees.is_none() {
                line.lose();
            }
            left = line;
            self.recorded = Some(line);
        }
        let same = self.frame.is_next(&mut left);
        Some(Agreed {
            answer: agrees.unwrap_or(false) && (draws || line.has_ended()),
            frame: same
                && if draws {
                    left.has_ended()
                } else {
                    left.found()
                },
        })
    }
}

#[cfg(test)]
mod tests {
    use super::*;
    use std::test::Fail;

    const READ: &[u8] = b" 00000000 00000000 00000002 00000000 00000000 = 00000000 00000001";

    #[test]
    fn asks_by_a_line_alone(rt: HostRuntime) -> Result<(), Fail> {
        let mut list = List::new();
        let before = list.replay(Call::Read, Line::new(READ), 0);
        assert!(rt; !before.answer && !before.frame);
        let frame = Line::new(b"frame 00000001 00000001 00000003 000000 00000001 07 00000001 03");
        assert!(rt; list.begin(Place::alone(frame)));
        let agreed = list.replay(Call::Read, Line::new(READ), 0);
        assert!(rt; agreed.answer && agreed.frame);
        let broken = list.replay(Call::Read, Line::new(&READ[..READ.len() - 1]), 1);
        assert!(rt; !broken.answer && broken.frame);
        Ok(())
    }
}
