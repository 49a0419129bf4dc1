// Why a call on the frame is turned away: numbers 1 to 3 (docs/RULES.md, The numbers), the first that holds.
ghost use Rattle.std.specs.Prelude.{◌≡◌, true, ◌&&◌, ◌*◌, ◌<◌, ◌≤◌, length, if◌then◌else◌, ◌==◌, slice_index};
ghost use Rattle.frame_pixel.specs.Marks.{highest_mark, coverage_marked};
ghost use Rattle.frame.specs.Frame.{frame_of};
ghost use Rattle.frame.specs.Loads.{CoverageThere};
ghost use Rattle.refused.specs.Refused.{refusal_of};
ghost use Rattle.frame.specs.Checks.{size_ok, sizes_ok, mark_ok, marks_ok, frame_refusal};
ghost use Rattle.frame.specs.Finding.{every, at_most, Sees, Tells};

use crate::load;
use refused::Refusal;

const SIZE: u32 = 1024;

// The highest mark: every mark bit.
const MARK: u8 = 3;

const COVERAGE: u8 = 7;

// How many pixels are looked at together where some coverages are marked and some are not.
const PART: usize = 32;

// What marks and, where every one is marked, coverages tell of number 3. Mixed: no mark is too high, and some coverages are marked and some not.
// An enum and no Option<bool>: Mixed asks for another pass.
#[derive(Clone, Copy)]
pub enum Finding {
    Good,
    Bad,
    Mixed,
}

// What marks say: none is too high, none marks a coverage, each marks one.
#[derive(Clone, Copy)]
struct Seen {
    low: bool,
    unmarked: bool,
    marked: bool,
}

fn size_ok(n: u32) -> bool
    ensures { result ≡ size_ok n }
{
    (1..=SIZE).contains(&n)
}

fn sizes_ok(width: u32, height: u32) -> bool
    ensures { result ≡ sizes_ok width height }
{
    size_ok(width) && size_ok(height)
}

fn lengths_ok(colors: usize, coverages: usize, marks: usize, pixels: usize) -> bool
    requires { pixels ≤ 1048576 }
    ensures { result ≡ (colors == 3 * pixels && (coverages == pixels && marks == pixels)) }
{
    colors == 3 * pixels && coverages == pixels && marks == pixels
}

// One pass without a branch, so that the loop has no other exit and many marks are taken at a time. It puts bits together, and what they say is asked once, at the end.
fn see(marks: &[u8]) -> Seen
    ensures { Sees marks.now result }
{
    let mut any: u8 = 0;
    let mut all: u8 = 255;
    for &mark in marks {
        any |= mark;
        all &= mark;
    }
    Seen {
        low: any <= MARK,
        unmarked: !frame_pixel::coverage_marked(any),
        marked: frame_pixel::coverage_marked(all),
    }
}

// An unmarked coverage is not loaded. The mark itself was checked before.
// By itself and no method of Marked: there the slices are known to be of one length, and a coverage could be loaded before its mark was asked.
#[tactic(auto, using(crate::proofs::Loads::mark_low))]
fn mark_ok(coverages: &[u8], marks: &[u8], i: usize) -> bool
    requires marked { (i < length marks.now) × (slice_index marks.now i ≤ highest_mark) }
    requires there { CoverageThere coverages.now marks.now i }
    ensures { result ≡ mark_ok (slice_index marks.now i) (slice_index coverages.now i) }
{
    load::known_coverage(coverages, marks, i).unwrap_or(0) <= COVERAGE
}

// The coverages and marks of a frame, or of a part of it.
#[derive(Clone, Copy)]
struct Marked<'a> {
    coverages: &'a [u8],
    marks: &'a [u8],
    ghost alike: { length coverages.now ≡ length marks.now },
}

impl Marked<'_> {
    // The one pass over all coverages, where every one is marked. It has no branch either. It goes by index: a coverage is loaded by `load` alone, with its mark.
    fn all_low(&self) -> bool
        requires { every coverage_marked self.now.marks.now ≡ true }
        ensures { result ≡ every (at_most 7) self.now.coverages.now }
    {
        let mut ok = true;
        for i in 0..self.coverages.len() {
            ok &= load::coverage(self.coverages, self.marks, i) <= COVERAGE;
        }
        ok
    }

    // One pixel after the other: for marks of which some, not all, mark a coverage. The one branch is whether a coverage may be loaded.
    // It goes by index, as `all_low` does.
    fn mixed_ok(&self) -> bool
        requires { every (at_most highest_mark) self.now.marks.now ≡ true }
        ensures { result ≡ marks_ok self.now.coverages.now self.now.marks.now }
    {
        let mut ok = true;
        for i in 0..self.marks.len() {
            ok &= mark_ok(self.coverages, self.marks, i);
        }
        ok
    }

    // The marks alone say whether no coverage may be loaded, every one, or only some.
    #[tactic(auto, using(crate::proofs::Refusals::marks_high, crate::proofs::Refusals::marks_unmarked, crate::proofs::Refusals::marks_marked), unfolding(crate::specs::Finding::Tells))]
    fn look(&self) -> Finding
        ensures { Tells self.now.coverages.now self.now.marks.now result }
    {
        let seen = see(self.marks);
        if !seen.low {
            return Finding::Bad;
        }
        if seen.unmarked {
            return Finding::Good;
        }
        if !seen.marked {
            return Finding::Mixed;
        }
        if self.all_low() {
            Finding::Good
        } else {
            Finding::Bad
        }
    }

    // `marks_ok` but for what mixed marks ask: here each pixel is looked at, there each part.
    #[tactic(auto, unfolding(crate::specs::Finding::Tells))]
    fn part_ok(&self) -> bool
        ensures { result ≡ marks_ok self.now.coverages.now self.now.marks.now }
    {
        match self.look() {
            Finding::Good => true,
            Finding::Bad => false,
            Finding::Mixed => self.mixed_ok(),
        }
    }

    // Part after part: known and unknown pixels mostly lie together, so that few parts are mixed. A loop, not `all`: that both slices of a part are of one length is known of the two iterators
    // together, so that its closure would need clauses of its own.
    fn parts_ok(&self) -> bool
        ensures { result ≡ marks_ok self.now.coverages.now self.now.marks.now }
    {
        for (coverages, marks) in self.coverages.chunks(PART).zip(self.marks.chunks(PART)) {
            let part = Marked { coverages, marks };
            if !part.part_ok() {
                return false;
            }
        }
        true
    }

    #[tactic(auto, unfolding(crate::specs::Finding::Tells))]
    fn marks_ok(&self) -> bool
        ensures { result ≡ marks_ok self.now.coverages.now self.now.marks.now }
    {
        match self.look() {
            Finding::Good => true,
            Finding::Bad => false,
            Finding::Mixed => self.parts_ok(),
        }
    }
}

// Whether the frame is turned away: by the first of numbers 1 to 3 that holds. It takes the bare slices: whether they are a frame is what it answers.
#[tactic(auto, unfolding(crate::specs::Checks::frame_refusal))]
pub fn frame_refusal(
    colors: &[u8],
    coverages: &[u8],
    marks: &[u8],
    width: u32,
    height: u32,
) -> Result<(), Refusal>
    ensures { refusal_of result ≡ frame_refusal (frame_of colors.now coverages.now marks.now) width height }
{
    if !sizes_ok(width, height) {
        return Err(Refusal::Size);
    }
    let pixels = width * height;
    if !lengths_ok(colors.len(), coverages.len(), marks.len(), pixels as usize) {
        return Err(Refusal::Lengths);
    }
    let pixels = Marked { coverages, marks };
    if !pixels.marks_ok() {
        return Err(Refusal::Marks);
    }
    Ok(())
}
