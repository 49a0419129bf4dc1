// The float side of a triangle (writeback.rs): which vertices are in range, which triangles are culled, the order of the
// vertices from the top down, and the colour at a pixel. Each operation is rounded once to an f32, in the Rust's order.
#![tactic(auto)]

ghost use Rattle.std.specs.Prelude.{◌≡◌, ◌<◌};
ghost use Rattle.raster_vertex.specs.Range.{within, in_range, finite_color};
ghost use Rattle.raster_vertex.specs.Sorted.{at_or_before, sorted};
ghost use Rattle.raster_vertex.specs.Shade.{colours_of, edge_of, area_of, culled_of, shade_of};
ghost use Rattle.raster_vertex.specs.Any.{AnyOf};

use state::Rgba;

pub mod row; // the colours of a row's pixels

// A position in pixels and a colour.
#[derive(Clone, Copy)]
pub struct Vertex {
    pub x: f32,
    pub y: f32,
    pub r: f32,
    pub g: f32,
    pub b: f32,
    pub a: f32,
}

// Three vertices, in the draw's order.
#[derive(Clone, Copy)]
pub struct Triangle {
    pub a: Vertex,
    pub b: Vertex,
    pub c: Vertex,
}

// (low..=high).contains(&x); std's, whose contract goes by partial_cmp, was tried, and the proof that it makes these tests did not close. A NaN is nowhere: both tests fail on it.
fn contains(low: f32, high: f32, x: f32) -> bool
    ensures { result ≡ within low high x }
{
    low <= x && x <= high
}

impl Vertex {
    pub fn in_range(self) -> bool
        ensures { result ≡ in_range self }
    {
        contains(-1024.0, 1023.75, self.x) && contains(-2048.0, 2047.75, self.y)
    }

    // Whether no colour is a NaN or an infinity.
    pub fn has_finite_color(self) -> bool
        ensures { result ≡ finite_color self }
    {
        num_float::is_finite(self.r)
            && num_float::is_finite(self.g)
            && num_float::is_finite(self.b)
            && num_float::is_finite(self.a)
    }

    pub fn color(self) -> Rgba
        ensures { result ≡ colours_of self }
    {
        Rgba {
            r: self.r,
            g: self.g,
            b: self.b,
            a: self.a,
        }
    }
}

impl Triangle {
    // Whether the test holds of one of the three.
    #[tactic(auto, unfolding(crate::specs::Any::AnyOf))]
    pub fn any<F: Fn(Vertex) -> bool>(self, test: F) -> bool
        requires { F.IsAlwaysCallable test }
        ensures { AnyOf (F.post test) self result }
    {
        test(self.a) || test(self.b) || test(self.c)
    }

    // Whether it is skipped, with the vertices in the draw's order. A NaN is not >= 0.0, so such an area is kept.
    pub fn culled(self, cull: bool) -> bool
        ensures { result ≡ culled_of cull self.a self.b self.c }
    {
        cull && area(self.a, self.b, self.c) >= 0.0
    }
}

// Twice the area of a, b and the point. Its sign says on which side of the line from a to b the point is.
#[tactic(auto, unfolding(crate::specs::Shade::edge_of))]
pub fn edge(a: Vertex, b: Vertex, px: f32, py: f32) -> f32
    ensures { result ≡ edge_of a b px py }
{
    (b.x - a.x) * (py - a.y) - (b.y - a.y) * (px - a.x)
}

// Before sorting its sign culls; after sorting it is what the weights of a colour are divided by.
pub fn area(a: Vertex, b: Vertex, c: Vertex) -> f32
    ensures { result ≡ area_of a b c }
{
    edge(a, b, c.x, c.y)
}

// Whether a is at or before b: by y, then x, in total_cmp's order. No PartialOrd of Vertex: colours do not enter, so that two would be equal that are not.
#[tactic(auto, unfolding(crate::specs::Sorted::at_or_before))]
fn at_or_before(a: Vertex, b: Vertex) -> bool
    ensures { result ≡ at_or_before a b }
{
    num_float::le_total(a.y, b.y)
        && (!num_float::le_total(b.y, a.y) || num_float::le_total(a.x, b.x))
}

// From the top down; vertices at one position keep their order. At most three compares: b against c, then a against the
// first of them, and where it is not before that, against the other. (Of std's sorts the one that keeps that order takes
// memory, and the library has no heap.)
pub fn sort(v: [Vertex; 3]) -> [Vertex; 3]
    ensures { result ≡ sorted v }
{
    let [a, b, c] = v;
    if at_or_before(b, c) {
        if at_or_before(a, b) {
            return [a, b, c];
        }
        if at_or_before(a, c) {
            return [b, a, c];
        }
        return [b, c, a];
    }
    if at_or_before(a, c) {
        return [a, c, b];
    }
    if at_or_before(a, b) {
        return [c, a, b];
    }
    [c, b, a]
}

// The colour at the upper left corner of pixel x, y. A vertex's weight is the edge across from it. The bounds, here and in row.rt, are clauses and no types:
// x and y are counters.
#[tactic(auto, using(crate::proofs::Rows::row_shade))]
pub fn shade(v: [Vertex; 3], x: usize, y: usize) -> Rgba
    requires { (x < 1024) × (y < 1024) }
    ensures { result ≡ shade_of v x y }
{
    row::shade_row(v, y as u32).at(x as u32)
}
