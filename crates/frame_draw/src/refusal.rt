// Why a draw is turned away: numbers 1 to 5 (docs/RULES.md, The numbers), the first that holds.
ghost use Rattle.std.specs.Prelude.{◌≡◌};
ghost use Rattle.frame.specs.Frame.{frame_of};
ghost use Rattle.refused.specs.Refused.{refusal_of};
ghost use Rattle.frame_draw.specs.Checks.{scissor_ok, flags_ok, inputs_ok, entry_refusal};
ghost use Rattle.frame_draw.specs.Draw.{draw_of};

use crate::DrawCall;
use raster_pixel::{Lists, Scissor};
use refused::Refusal;

const SCISSOR: u32 = 65535;

const VERTICES: usize = 4096;

const INDICES: usize = 12288;

#[tactic(auto, unfolding(crate::specs::Checks::scissor_ok))]
fn scissor_ok(s: Scissor) -> bool
    ensures { result ≡ scissor_ok s }
{
    s.left <= SCISSOR && s.top <= SCISSOR && s.width <= SCISSOR && s.height <= SCISSOR
}

fn flags_ok(present: &[u8]) -> bool
    ensures { result ≡ flags_ok present.now }
{
    present.iter().all(|&flag| flag <= 1)
}

#[tactic(auto, unfolding(crate::specs::Checks::inputs_ok))]
fn inputs_ok(lists: &Lists) -> bool
    ensures { let l = lists.now in result ≡ inputs_ok l.vertices.now l.present.now l.indices.now }
{
    lists.present.len() <= VERTICES
        && lists.vertices.len() == 6 * lists.present.len()
        && flags_ok(lists.present)
        && lists.indices.len() % 3 == 0
        && lists.indices.len() <= INDICES
}

#[tactic(auto, unfolding(crate::specs::Checks::entry_refusal))]
pub fn entry_refusal(
    width: u32,
    height: u32,
    colors: &[u8],
    coverages: &[u8],
    marks: &[u8],
    draw: &DrawCall,
) -> Result<(), Refusal>
    ensures { let d = draw_of draw.now in
        refusal_of result ≡ entry_refusal (frame_of colors.now coverages.now marks.now) width height d.scissor d.vertices d.present d.indices }
{
    frame::refusal::frame_refusal(colors, coverages, marks, width, height)?;
    if !scissor_ok(draw.scissor) {
        return Err(Refusal::Scissor);
    }
    if !inputs_ok(&draw.lists) {
        return Err(Refusal::Lists);
    }
    Ok(())
}
