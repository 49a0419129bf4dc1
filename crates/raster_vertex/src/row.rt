// The colours of a row's pixels. What turns on the triangle and the row alone is worked out once, and each pixel takes the operations of `shade_of` that are
// left, in the same order.
ghost use Rattle.std.specs.Prelude.{◌≡◌, ◌<◌};
ghost use Rattle.raster_vertex.specs.Row.{line_of, weight_at, row_of, shade_on};

use crate::Vertex;
use state::Rgba;

// `edge` from one vertex to another, on a row: level - rise * (px - x).
#[derive(Clone, Copy)]
pub struct Line {
    pub level: f32,
    pub rise: f32,
    pub x: f32,
}

// A triangle's colours on a row: for each vertex the line across from it and its colour, and what the terms are divided by.
#[derive(Clone, Copy)]
pub struct ShadeRow {
    pub line_a: Line,
    pub line_b: Line,
    pub line_c: Line,
    pub a: Rgba,
    pub b: Rgba,
    pub c: Rgba,
    pub den: f32,
}

// `edge` in parts: what does not turn on the column is worked out once a row.
#[tactic(auto, unfolding(crate::specs::Row::line_of))]
fn line_between(a: Vertex, b: Vertex, py: f32) -> Line
    ensures { result ≡ line_of a b py }
{
    Line {
        level: (b.x - a.x) * (py - a.y),
        rise: b.y - a.y,
        x: a.x,
    }
}

// Row y of a triangle.
pub fn shade_row(v: [Vertex; 3], y: u32) -> ShadeRow
    requires { y < 1024 }
    ensures { result ≡ row_of v y }
{
    let [a, b, c] = v;
    let py = y as f32;
    ShadeRow {
        line_a: line_between(b, c, py),
        line_b: line_between(c, a, py),
        line_c: line_between(a, b, py),
        a: a.color(),
        b: b.color(),
        c: c.color(),
        den: crate::area(a, b, c),
    }
}

impl Line {
    #[tactic(auto, unfolding(crate::specs::Row::weight_at))]
    fn weight(self, px: f32) -> f32
        ensures { result ≡ weight_at self px }
    {
        self.level - self.rise * (px - self.x)
    }
}

impl ShadeRow {
    // The colour at the upper left corner of the row's pixel x.
    pub fn at(self, x: u32) -> Rgba
        requires { x < 1024 }
        ensures { result ≡ shade_on self x }
    {
        let px = x as f32;
        let wa = self.line_a.weight(px);
        let wb = self.line_b.weight(px);
        let wc = self.line_c.weight(px);
        let Self { a, b, c, den, .. } = self;
        Rgba {
            r: wa * a.r / den + wb * b.r / den + wc * c.r / den,
            g: wa * a.g / den + wb * b.g / den + wc * c.g / den,
            b: wa * a.b / den + wb * b.b / den + wc * c.b / den,
            a: wa * a.a / den + wb * b.a / den + wc * c.a / den,
        }
    }
}
