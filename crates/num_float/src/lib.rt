// Floats: clamping, order, finiteness, and the whole numbers that the Rust's floor, ceil, round and saturating casts give.
// Every public function is total on every bit pattern. Tests are strict (<, >), so that a NaN falls into the last arm.
#![tactic(auto)]

ghost use Rattle.std.specs.Prelude.{◌≡◌, false, ◌*◌, ◌/◌, ◌%◌, ◌^◌, ◌≤◌, to_bits, if◌then◌else◌, ◌==◌};
ghost use Rattle.std.specs.Float.{NotNan, binary64};
ghost use Rattle.std.specs.Float.Ieee.{lt, neg};
ghost use Rattle.std.specs.Float.Ieee.Exact.{HasValue};
ghost use Rattle.std.specs.Float.Ieee.Positive.{num, den};
ghost use Rattle.num_float.specs.Color.{f0, clamped, channel_of, is_finite, total_le};
ghost use Rattle.num_float.specs.Whole.{whole, near, floor, ceil, index_cap, byte_of, quarter_of};
ghost use Rattle.num_float.specs.Coarse.{Coarse};

// No bound of a frame or of a scissor (at most 65,535 + 65,535) is above this: what is cut off here is cut off by them too.
const INDEX_LIMIT: f32 = 131072.0;

// Rust's x.clamp(0.0, 1.0).
pub fn clamp01(x: f32) -> f32
    ensures { result ≡ clamped x }
{
    x.clamp(0.0, 1.0)
}

// The combiner's equation.
pub fn channel(a: f32, b: f32, c: f32, d: f32) -> f32
    ensures { result ≡ channel_of a b c d }
{
    clamp01((a - b) * c + d)
}

// No NaN and no infinity.
#[tactic(auto, using(crate::proofs::Values::finite_same))]
pub fn is_finite(x: f32) -> bool
    ensures { result ≡ is_finite x }
{
    x.is_finite()
}

// Whether a is at or before b in total_cmp's order; std's total_cmp asks that neither is a NaN. Two values that are equal differ at most in a zero's sign.
#[tactic(auto, using(crate::proofs::Values::equal_left, crate::proofs::Values::equal_right, crate::proofs::Values::sign_same))]
pub fn le_total(a: f32, b: f32) -> bool
    ensures { result ≡ total_le a b }
{
    a < b || a == b && (a.is_sign_negative() || b.is_sign_positive())
}

// v where it is above 0, and 0 for the rest, a NaN too. Not `max`: that may answer either of two zeros.
fn above_zero(v: f32) -> f32
    ensures { result ≡ (if lt f0 v then v else f0) }
{
    if v > 0.0 { v } else { 0.0 }
}

// v where it is below top, and top for the rest. Not `min`: that may answer either of two that compare equal.
fn up_to(v: f32, top: f32) -> f32
    ensures { result ≡ (if lt v top then v else top) }
{
    if v < top { v } else { top }
}

// The bits of w from the 26th up. From 2^26 up to 2^27 they are its whole part less 2^26, since the last digit there is 2^-26.
fn whole_bits(w: f64) -> u64
    requires { NotNan w }
    ensures { result ≡ to_bits binary64 w / 2 ^ 26 % 2 ^ 26 }
{
    (w.to_bits() >> 26) & 0x3ff_ffff
}

// The whole number nearest to y, halves up, where y is an f32 or four times one. The sum is exact from 1/8 up; below that its
// rounding stays below 2^26 + 1.
fn nearest(y: f64) -> u64
    requires value { HasValue y false (num y) (den y) }
    requires bounded { num y ≤ 131072 * den y }
    requires coarse { Coarse (num y) (den y) }
    ensures { result ≡ near (num y) (den y) }
{
    whole_bits(y + 67108864.5)
}

// Rust's (v.clamp(0.0, 1.0) * 255.0).round() as u8. A NaN and -0.0, which clamp keeps, are cut off to 0.0 here; their byte is 0 either way.
pub fn byte_of(v: f32) -> u8
    ensures { result ≡ byte_of v }
{
    nearest((up_to(above_zero(v), 1.0) * 255.0) as f64) as u8
}

// Rust's x.abs(), but for the sign of a zero, as the definition has it. By `abs` nothing runs faster or slower, and a law on zeros would be needed.
fn magnitude(x: f32) -> f32
    ensures { result ≡ (if lt x f0 then neg x else x) }
{
    if x < 0.0 { -x } else { x }
}

// Rust's (f64::from(x) * 4.0).round() as i64, with the size cut off at 16384 before.
pub fn quarter(x: f32) -> i64
    ensures { result ≡ quarter_of x }
{
    let n = nearest(up_to(above_zero(magnitude(x)), 16384.0) as f64 * 4.0) as i64;
    if x < 0.0 { -n } else { n }
}

// The whole part of y, as `nearest` finds it.
fn whole_part(y: f32) -> u64
    requires value { HasValue y false (num y) (den y) }
    requires bounded { num y ≤ 131072 * den y }
    ensures { result ≡ floor (num y) (den y) }
{
    whole_bits(y as f64 + 67108864.0)
}

// Rust's x.floor().max(0.0) as usize.
pub fn floor_index(x: f32) -> usize
    ensures { result ≡ whole floor index_cap x }
{
    whole_part(up_to(above_zero(x), INDEX_LIMIT)) as usize
}

// Rust's x.ceil().max(0.0) as usize.
pub fn ceil_index(x: f32) -> usize
    ensures { result ≡ whole ceil index_cap x }
{
    let y = up_to(above_zero(x), INDEX_LIMIT);
    let t = whole_part(y);
    if (t as f32) < y {
        (t + 1) as usize
    } else {
        t as usize
    }
}
