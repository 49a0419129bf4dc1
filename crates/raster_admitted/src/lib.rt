// The checks of `admitted` (writeback.rs) on three vertices: which vertex an index names, for check 1, and checks 2 to 6.
#![tactic(auto)]

ghost use Rattle.std.specs.Prelude.{◌≡◌, not};
ghost use Rattle.std.specs.Float.Ieee.{ne};
ghost use Rattle.raster_vertex.specs.Range.{in_range, finite_color};
ghost use Rattle.combiner.specs.Combine.{color_of};
ghost use Rattle.raster_admitted.specs.Check.{looked_up, colour_of, is_shade, uses_shade, any, alpha_differs, alpha_check, check_of};
ghost use Rattle.raster_admitted.specs.Checked.{check_number};

use combiner::Combiner;
use combiner_inputs::{AlphaIn, CycleSel};
use raster_vertex::{Triangle, Vertex};
use state::Rgba;

// The checks of a triangle, 1 to 6 in the Rust's order.
#[derive(Clone, Copy, Debug, PartialEq, Eq)]
pub enum Check {
    Missing, // a vertex
    OutOfRange,
    ShadesDiffer, // the alphas of the shades
    NotFinite,
    NoColor,
    AlphasDiffer, // of the combined colours
}

// The vertex that an index names: its presence flag is 1 and its six floats are there.
#[tactic(auto, unfolding(crate::specs::Check::looked_up))]
pub fn look_up(vertices: &[f32], present: &[u8], index: u32) -> Option<Vertex>
    ensures { result ≡ looked_up vertices.now present.now index }
{
    let i = index as usize;
    let at = 6 * i;
    if *present.get(i)? != 1 || vertices.len() < at + 6 {
        return None;
    }
    Some(Vertex {
        x: vertices[at],
        y: vertices[at + 1],
        r: vertices[at + 2],
        g: vertices[at + 3],
        b: vertices[at + 4],
        a: vertices[at + 5],
    })
}

// By itself: with the four tests written out, the search left `reads_shade` unproved.
#[tactic(auto, unfolding(combiner_inputs::specs::Inputs::alpha_number))]
fn is_shade(input: AlphaIn) -> bool
    ensures { result ≡ is_shade input }
{
    input == AlphaIn::Shade
}

// Whether an alpha selector is Shade.
#[tactic(auto, unfolding(crate::specs::Check::uses_shade))]
fn reads_shade(s: CycleSel) -> bool
    ensures { result ≡ uses_shade s }
{
    is_shade(s.aa) || is_shade(s.ab) || is_shade(s.ac) || is_shade(s.ad)
}

// Whether a combined colour is missing or has another alpha.
fn alpha_differs(alpha: f32, color: Option<Rgba>) -> bool
    ensures { result ≡ alpha_differs alpha color }
{
    color.is_none_or(|color| color.a != alpha)
}

// Check 2.
pub fn out_of_range(triangle: Triangle) -> bool
    ensures { result ≡ any (λ v. not (in_range v)) triangle.a triangle.b triangle.c }
{
    triangle.any(|v| !v.in_range())
}

// Check 3, where an alpha selector is Shade. A NaN differs from itself.
fn shades_differ(triangle: Triangle) -> bool
    ensures { result ≡ any (λ v. ne v.a triangle.a.a) triangle.a triangle.b triangle.c }
{
    triangle.any(|v| v.a != triangle.a.a)
}

// Check 4.
fn not_finite(triangle: Triangle) -> bool
    ensures { result ≡ any (λ v. not (finite_color v)) triangle.a triangle.b triangle.c }
{
    triangle.any(|v| !v.has_finite_color())
}

// Check 6.
fn alphas_differ(combiner: Combiner, alpha: f32, triangle: Triangle) -> bool
    ensures { result ≡ any (λ v. alpha_differs alpha (color_of combiner (colour_of v))) triangle.a triangle.b triangle.c }
{
    triangle.any(|v| alpha_differs(alpha, combiner.color(v.color())))
}

// Checks 5 and 6.
fn alpha_check(combiner: Combiner, triangle: Triangle) -> Result<(), Check>
    ensures { check_number result ≡ alpha_check combiner triangle.a triangle.b triangle.c (color_of combiner (colour_of triangle.a)) }
{
    let color = combiner.color(triangle.a.color()).ok_or(Check::NoColor)?;
    if alphas_differ(combiner, color.a, triangle) {
        return Err(Check::AlphasDiffer);
    }
    Ok(())
}

// The first of checks 2 to 6 of a triangle that fails, in the Rust's order. Combiner and triangle, or lists, stay two parameters: one gives the colours, and the other the vertices.
#[tactic(auto, unfolding(crate::specs::Check::check_of))]
pub fn checks(combiner: Combiner, triangle: Triangle) -> Result<(), Check>
    ensures { check_number result ≡ check_of combiner triangle.a triangle.b triangle.c }
{
    if out_of_range(triangle) {
        return Err(Check::OutOfRange);
    }
    if reads_shade(combiner.selectors) && shades_differ(triangle) {
        return Err(Check::ShadesDiffer);
    }
    if not_finite(triangle) {
        return Err(Check::NotFinite);
    }
    alpha_check(combiner, triangle)
}
