// The rectangle of writeback.rs `rasterize`: whether a quarter of a pixel lies between two of its sides, and its edges as those of a triangle. A side is any f32, a NaN or an
// infinity too.
#![tactic(auto)]

ghost use Rattle.std.specs.Prelude.{◌≡◌, ◌+◌, ◌*◌, ◌<◌, ◌≤◌};
ghost use Rattle.raster_rectangle.specs.Rectangle.{quarters, within_of};
ghost use Rattle.raster_rectangle.specs.Outline.{Before, From, upright_of, Outlines};

use raster_edge::Edge;
use raster_edges::Tri;

#[derive(Clone, Copy)]
pub struct Sides {
    pub left: f32,
    pub top: f32,
    pub right: f32,
    pub bottom: f32,
}

// Whether p lies in low..high: never, if one of the three is a NaN. By hand, as `contains` of a vertex (raster_vertex), and for its reason.
fn within(low: f32, high: f32, p: f32) -> bool
    ensures { result ≡ within_of low high p }
{
    p >= low && p < high
}

// Whether quarter q of pixel n of an axis lies in low..high. The sum is exact, so that p is where the quarter lies.
pub fn quarter_within(low: f32, high: f32, n: u32, q: u32) -> bool
    requires { (n < 1024) × (q < 4) }
    ensures { result ≡ within_of low high (quarters (n * 4 + q)) }
{
    within(low, high, n as f32 + q as f32 * 0.25)
}

// How many of an axis's quarters, 0 to 4095, lie before the side: none, if it is a NaN. The nearest one is no further off than half a quarter, so that it is
// the last before the side, or the first that is not.
fn quarters_before(side: f32) -> u32
    ensures { Before side result }
{
    let n = raster_edge::clamp(num_float::quarter(side), 0, 4095);
    if n as f32 * 0.25 < side { n + 1 } else { n }
}

// The first quarter that lies at the side or after it: none, which is 4096, if it is a NaN. It is no None, since the edges of an outline are made of it.
fn first_quarter(side: f32) -> u32
    ensures { From side result }
{
    if side.is_nan() {
        4096
    } else {
        quarters_before(side)
    }
}

// An upright edge at quarter q.
fn upright(q: u32) -> Edge
    requires { q ≤ 4096 }
    ensures { result ≡ upright_of q }
{
    Edge {
        start: (q as i64) << 14,
        step: 0,
        base: 0,
    }
}

// A rectangle by edges, as a triangle has them: the samples between them are those that it holds.
pub fn outline(sides: Sides) -> Tri
    ensures { Outlines sides result }
{
    let major = upright(first_quarter(sides.left));
    let other = upright(quarters_before(sides.right));
    let top = first_quarter(sides.top) as i64;
    let end = quarters_before(sides.bottom) as i64;
    Tri {
        major,
        upper: other,
        lower: other,
        top,
        mid: end,
        end,
        rightward: true,
    }
}
