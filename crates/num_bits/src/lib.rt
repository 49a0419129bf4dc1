// Fields of a word, taken out by a shift and a mask, and the number of ones of a byte.
#![tactic(auto)]

ghost use Rattle.std.specs.Prelude.{◌≡◌, ◌<◌};
ghost use Rattle.num_bits.specs.Field.{field};
ghost use Rattle.num_bits.specs.Ones.{ones_of};

// The n bits of v from bit pos up, as the Rust's bits: of a u32, at any width.
#[tactic(auto, using(crate::proofs::Fields::masked))]
pub fn bits(v: u32, pos: u32, n: u32) -> u32
    requires { (pos < 32) × (n < 32) }
    ensures { result ≡ field v pos n }
{
    (v >> pos) & ((1 << n) - 1)
}

// How many bits of a mask are one: of a pixel's eight samples, how many are hit.
pub fn ones(mask: u8) -> u8
    ensures { result ≡ ones_of mask }
{
    u8::count_ones(mask) as u8
}
