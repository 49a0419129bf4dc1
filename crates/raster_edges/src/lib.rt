#![tactic(auto)]

// The whole-number part of the Rust's rasterize: from a triangle's corners, in quarters of a pixel, to the eight samples of a pixel. A rectangle has such edges too.
ghost use Rattle.std.specs.Prelude.{◌≡◌, ◌<◌, ◌≤◌, nat_abs};
ghost use Rattle.raster_edge.specs.Limits.{Tame};
ghost use Rattle.raster_edges.specs.Limits.{Near, AllNear, TameTri};
ghost use Rattle.raster_edges.specs.Edge.{slope_of, area_of, edge_start, edge_from};
ghost use Rattle.raster_edges.specs.Span.{tri_of, line_of, edges_of};
ghost use Rattle.raster_edges.specs.Lines.{row_of};
ghost use Rattle.raster_edges.specs.Sample.{bit_of, inside, pair_of, mask_of};
ghost use Rattle.raster_edges.specs.Bound.{no_sample, Between, all_samples, no_row};
ghost use Rattle.raster_range.specs.Kept.{Kept};
ghost use Rattle.raster_range.specs.Inner.{Inner};

use raster_edge::{Edge, Span};
use raster_range::Range;

// A corner of a triangle, in quarters of a pixel. That it is near is a clause and no ghost field: a vertex of any floats has corners.
#[derive(Clone, Copy)]
pub struct Corner {
    pub x: i64,
    pub y: i64,
}

// The edges of a triangle or of a rectangle. It covers the quarter lines from top to end; the upper edge gives way to the lower at mid.
// The major edge is the left one if `rightward`. That each is tame is a clause, as for one edge.
#[derive(Clone, Copy)]
pub struct Tri {
    pub major: Edge,
    pub upper: Edge,
    pub lower: Edge,
    pub top: i64,
    pub mid: i64,
    pub end: i64,
    pub rightward: bool,
}

// The spans of a row's four quarter lines, by side and not as four Spans: `raster_edge::four` makes one side's lines of one edge, and `outermost`, `full_from`
// and `full_to` take a side's four at once.
#[derive(Clone, Copy)]
pub struct Edges {
    pub left: [i64; 4],
    pub right: [i64; 4],
}

// How far x moves from a to b for each whole line, in 2^-16 of a pixel.
pub fn slope(a: Corner, b: Corner) -> i64
    requires { (Near a) × (Near b) }
    ensures { result ≡ slope_of a b }
{
    let dx = b.x - a.x;
    let dy = b.y - a.y;
    raster_edge::away(dx << 16, dy.max(1)) & !7
}

// Twice the area of a triangle, in sixteenths of a pixel; negative for one turn of the corners.
pub fn quarter_area(v: [Corner; 3]) -> i64
    requires { AllNear v }
    ensures { result ≡ area_of v }
{
    let [a, b, c] = v;
    (b.x - a.x) * (c.y - a.y) - (b.y - a.y) * (c.x - a.x)
}

// Where the edge through a crosses the whole line at or above a.
fn edge_start(a: Corner, step: i64) -> i64
    requires { (Near a) × (nat_abs step ≤ 2147483648) }
    ensures { result ≡ edge_start a step }
{
    (a.x << 14) - (step >> 2) * (a.y & 3)
}

// The edge through a, from that line.
fn edge_from(a: Corner, step: i64) -> Edge
    requires { (Near a) × (nat_abs step ≤ 2147483648) }
    ensures { result ≡ edge_from a step }
{
    Edge {
        start: edge_start(a, step),
        step,
        base: a.y & !3,
    }
}

// A triangle's edges, from its corners sorted top to bottom.
pub fn setup(v: [Corner; 3]) -> Tri
    requires { AllNear v }
    ensures { result ≡ tri_of v }
{
    let [a, b, c] = v;
    let s = slope(a, c);
    let u = slope(a, b);
    let w = slope(b, c);
    Tri {
        major: edge_from(a, s),
        upper: edge_from(a, u),
        lower: Edge {
            start: b.x << 14,
            step: w,
            base: b.y,
        },
        top: a.y,
        mid: b.y,
        end: c.y,
        rightward: s <= u,
    }
}

// What the triangle spans on a quarter line: nothing above its top or from its end. Here and below a line's, a row's or a pixel's bound is a clause and no
// type: each is a counter.
pub fn line_at(t: Tri, scan: u32) -> Span
    requires { (TameTri t) × (scan ≤ 16384) }
    ensures { result ≡ line_of t scan }
{
    let n = scan as i64;
    if n < t.top || t.end <= n {
        Span { l: 0, r: 0 }
    } else if n < t.mid {
        raster_edge::span_at(t.major, t.upper, t.rightward, scan)
    } else {
        raster_edge::span_at(t.major, t.lower, t.rightward, scan)
    }
}

// The four quarter lines of row y, each by itself.
#[tactic(auto, unfolding(crate::specs::Span::edges_of))]
fn lines_at(t: Tri, y: u32) -> Edges
    requires { (TameTri t) × (y < 4095) }
    ensures { result ≡ edges_of t y }
{
    let n = y * 4;
    let a = line_at(t, n);
    let b = line_at(t, n + 1);
    let c = line_at(t, n + 2);
    let d = line_at(t, n + 3);
    Edges {
        left: [a.l, b.l, c.l, d.l],
        right: [a.r, b.r, c.r, d.r],
    }
}

// What lies between two edges on four quarter lines from n. `span_at` (raster_edge) exchanges left and right as this does, of one line where this is of four.
#[tactic(auto, unfolding(crate::specs::Lines::row_of))]
fn row_at(major: Edge, other: Edge, rightward: bool, n: u32) -> Edges
    requires { (Tame major) × (Tame other) × (n < 16380) }
    ensures { result ≡ row_of major other rightward n }
{
    let (left, right) = if rightward {
        (major, other)
    } else {
        (other, major)
    };
    Edges {
        left: raster_edge::four(left, n),
        right: raster_edge::four(right, n),
    }
}

// The four quarter lines of row y. In most rows the same two edges bound all four; a row with a corner goes line by line.
pub fn edges_at(t: Tri, y: u32) -> Edges
    requires { (TameTri t) × (y < 4095) }
    ensures { result ≡ edges_of t y }
{
    let n = y * 4;
    let first = n as i64;
    let last = (n + 3) as i64;
    if t.top <= first && last < t.end {
        if last < t.mid {
            return row_at(t.major, t.upper, t.rightward, n);
        }
        if t.mid <= first {
            return row_at(t.major, t.lower, t.rightward, n);
        }
    }
    lines_at(t, y)
}

// Whether the sample at n, in eighths of a pixel, lies in l..r.
pub fn inside(l: i64, r: i64, n: u32) -> bool
    ensures { result ≡ inside l r n }
{
    let p = n as i64;
    (l..r).contains(&p)
}

// 1 where it does, and 0 where not.
fn hit(l: i64, r: i64, n: u32) -> u8
    ensures { result ≡ bit_of (inside l r n) }
{
    inside(l, r, n) as u8
}

// The two samples of pixel x on row s of its four, the left one in the upper bit.
#[tactic(auto, unfolding(crate::specs::Sample::pair_of, crate::specs::Sample::two_of))]
fn pair(e: Edges, x: u32, s: usize) -> u8
    requires { (x < 65536) × (s < 4) }
    ensures { result ≡ pair_of e x s }
{
    let l = e.left[s];
    let r = e.right[s];
    let n = x * 8 + (s as u32 & 1) * 2;
    (hit(l, r, n) << 1) | hit(l, r, n + 4)
}

// The eight samples of pixel x: bit 7 is row 0's left one.
pub fn mask(e: Edges, x: u32) -> u8
    requires { x < 65536 }
    ensures { result ≡ mask_of e x }
{
    let a = pair(e, x, 0);
    let b = pair(e, x, 1);
    let c = pair(e, x, 2);
    let d = pair(e, x, 3);
    (a << 6) | (b << 4) | (c << 2) | d
}

// The part of the pixels x0..x1 between the outermost edges: no sample lies outside. A line that covers nothing, as above the top corner, does not count.
pub fn bounds(e: Edges, x0: u32, x1: u32) -> Range
    requires { (x0 ≤ x1) × (x1 ≤ 1024) }
    ensures kept { Kept (no_sample e) x0 x1 result }
    ensures fits { Inner (Between e) x0 x1 result }
{
    let first = raster_edge::outermost(e.left, e.right, true);
    let last = raster_edge::outermost(e.left, e.right, false);
    raster_edge::within(first >> 3, (last >> 3) + 1, x0, x1)
}

// The part of the rows y0..y1 that the shape's quarter lines can touch: no sample lies outside.
pub fn rows(t: Tri, y0: u32, y1: u32) -> Range
    requires { y0 ≤ y1 }
    ensures { Kept (no_row t) y0 y1 result }
{
    raster_edge::within(t.top >> 2, (t.end >> 2) + 1, y0, y1)
}

// The part of the pixels x0..x1 between the innermost edges: each has all eight samples.
#[tactic(auto, using(crate::proofs::Innermost::full_pixels))]
pub fn full(e: Edges, x0: u32, x1: u32) -> Range
    requires { (x0 ≤ x1) × (x1 ≤ 1024) }
    ensures { Inner (all_samples e) x0 x1 result }
{
    let from = raster_edge::full_from(e.left);
    let to = raster_edge::full_to(e.right);
    raster_edge::within(from as i64, to as i64, x0, x1)
}
