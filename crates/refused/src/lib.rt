// Why a call is turned away: the numbers of docs/RULES.md.
#![tactic(auto)]

ghost use Rattle.std.specs.Prelude.{◌≡◌};
ghost use Rattle.refused.specs.Numbers.{number_of};

// The first that holds is the one that a call answers.
#[derive(Clone, Copy, Debug, PartialEq, Eq)]
pub enum Refusal {
    Size = 1, // of the frame
    Lengths = 2, // of its slices
    Marks = 3, // one is too high, or marks a coverage that is too high
    Scissor = 4,
    Lists = 5, // of vertices, presence flags and indices
    Combiner = 6,
    Geometry = 7, // nothing, or not admitted
    Pixel = 8,
    Writer = 9,
    Unknown = 10, // the pixel's colour, or a coverage that its word needs
    Arguments = 11, // of a single-pixel call
    Words = 19, // of a run: not two bytes for each number
    Slots = 20, // of a run: not one length for pixels and masks
}

impl Refusal {
    pub fn number(self) -> u8
        ensures { result ≡ number_of self }
    {
        self as u8
    }
}
