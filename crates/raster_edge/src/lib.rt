#![tactic(auto)]

// One edge of a triangle or of a rectangle in whole numbers (the Rust's rasterize): its x on a quarter line, what lies between two edges there, and what bounds four lines.
ghost use Rattle.std.specs.Prelude.{◌≡◌, ◌<◌, ◌≤◌, pos, nat_abs, ◌≤ℤ◌};
ghost use Rattle.raster_edge.specs.Limits.{Tame};
ghost use Rattle.raster_edge.specs.Edge.{quantized, away_div, edge_at, cross_of};
ghost use Rattle.raster_edge.specs.Span.{span_of};
ghost use Rattle.raster_edge.specs.Lines.{four_of};
ghost use Rattle.raster_edge.specs.Bound.{outer_of, tip_of, outermost_of, clamp_of, range_of, edge_of_rows, full_from, full_to};

use raster_range::Range;

// An edge: its x on quarter line `base`, in 2^-16 of a pixel, and its step for each whole line in 2^-16 of a pixel. That it is tame, and so never overflows, is
// a clause and no ghost field, since the definition of what a draw emits makes edges of any corners.
#[derive(Clone, Copy)]
pub struct Edge {
    pub start: i64,
    pub step: i64,
    pub base: i64,
}

// What a shape spans on a quarter line, in eighths of a pixel.
#[derive(Clone, Copy)]
pub struct Span {
    pub l: i64,
    pub r: i64,
}

// An edge's x as eighths of a pixel; what is lost of x stays in the lowest bit.
fn quantize(x: i64) -> i64
    ensures { result ≡ quantized x }
{
    ((x >> 13) & !1) | (((x & 0x3ffe) != 0) as i64)
}

// num over den, its size rounded up.
pub fn away(num: i64, den: i64) -> i64
    requires { (nat_abs num < 1099511627776) × (nat_abs den < 1099511627776) × (pos 1 ≤ℤ den) }
    ensures { result ≡ away_div num (nat_abs den) }
{
    if num < 0 {
        -((-num + den - 1) / den)
    } else {
        (num + den - 1) / den
    }
}

// An edge's x on a quarter line. The line's bound is a clause, here and below, and no type: scan is a counter.
fn edge_at(e: Edge, scan: u32) -> i64
    requires { (Tame e) × (scan ≤ 16384) }
    ensures { result ≡ edge_at e scan }
{
    e.start + ((e.step >> 2) & !1) * (scan as i64 - e.base)
}

// And in eighths of a pixel.
#[tactic(auto, unfolding(crate::specs::Edge::cross_of))]
fn cross(e: Edge, scan: u32) -> i64
    requires { (Tame e) × (scan ≤ 16384) }
    ensures { result ≡ cross_of e scan }
{
    quantize(edge_at(e, scan))
}

// What lies between two edges on a quarter line.
#[tactic(auto, unfolding(crate::specs::Span::span_of))]
pub fn span_at(major: Edge, other: Edge, rightward: bool, scan: u32) -> Span
    requires { (Tame major) × (Tame other) × (scan ≤ 16384) }
    ensures { result ≡ span_of major other rightward scan }
{
    let m = cross(major, scan);
    let n = cross(other, scan);
    if rightward {
        Span { l: m, r: n }
    } else {
        Span { l: n, r: m }
    }
}

// An edge on four quarter lines from n.
#[tactic(auto, unfolding(crate::specs::Lines::four_of))]
pub fn four(e: Edge, n: u32) -> [i64; 4]
    requires { (Tame e) × (n < 16380) }
    ensures { result ≡ four_of e n }
{
    [
        cross(e, n),
        cross(e, n + 1),
        cross(e, n + 2),
        cross(e, n + 3),
    ]
}

// The smaller of two if `low`, else the larger. A flag for the two ends in this and the next functions, so that one law serves both.
fn outer(a: i64, b: i64, low: bool) -> i64
    ensures { result ≡ outer_of low a b }
{
    if low { a.min(b) } else { a.max(b) }
}

// The first eighth that line s of four covers if `low`, else the last. A line that covers none bounds nothing: it is put past pixel 1023, or before pixel 0,
// and is no None, since `outermost` takes the least or the greatest of four.
fn tip(l: [i64; 4], r: [i64; 4], s: usize, low: bool) -> i64
    requires { s < 4 }
    ensures { result ≡ tip_of low l r s }
{
    let a = l[s];
    let b = r[s];
    match (a < b, low) {
        (true, true) => a,
        (true, false) => b - 1,
        (false, true) => 8192,
        (false, false) => -1,
    }
}

// The first eighth that four lines cover if `low`, else the last.
#[tactic(auto, unfolding(crate::specs::Bound::outermost_of))]
pub fn outermost(l: [i64; 4], r: [i64; 4], low: bool) -> i64
    ensures { result ≡ outermost_of low l r }
{
    outer(
        outer(tip(l, r, 0, low), tip(l, r, 1, low), low),
        outer(tip(l, r, 2, low), tip(l, r, 3, low), low),
        low,
    )
}

// z within lo..=hi.
pub fn clamp(z: i64, lo: u32, hi: u32) -> u32
    requires { lo ≤ hi }
    ensures { result ≡ clamp_of z lo hi }
{
    z.clamp(lo as i64, hi as i64) as u32
}

// The part of lo..hi that lies in from..to.
#[tactic(auto, unfolding(crate::specs::Bound::range_of))]
pub fn within(from: i64, to: i64, lo: u32, hi: u32) -> Range
    requires { lo ≤ hi }
    ensures { result ≡ range_of from to lo hi }
{
    let start = clamp(from, lo, hi);
    let end = clamp(to, start, hi);
    Range { start, end }
}

// The smaller of the edges on two rows if `low`, else the larger, cut to the eighths of the pixels 0..1024.
#[tactic(auto, unfolding(crate::specs::Bound::edge_of_rows))]
fn edge_of_rows(e: [i64; 4], i: usize, j: usize, low: bool) -> u32
    requires { (i < 4) × (j < 4) }
    ensures { result ≡ edge_of_rows low e i j }
{
    clamp(outer(e[i], e[j], low), 0, 8192)
}

// The first pixel all of whose samples lie right of their left edges. The leftmost samples of pixel x are at 8 x, and at 8 x + 2 on the odd rows.
// Apart from `full_to`: one function of both would take the end, both constants, and max or min.
#[tactic(auto, using(crate::proofs::Clamped::rows_le), unfolding(crate::specs::Bound::full_from))]
pub fn full_from(l: [i64; 4]) -> u32
    ensures { result ≡ full_from l }
{
    let a = edge_of_rows(l, 0, 2, false) + 7;
    let b = edge_of_rows(l, 1, 3, false) + 5;
    a.max(b) >> 3
}

// The first pixel not all of whose samples lie left of their right edges. The rightmost are at 8 x + 4, and at 8 x + 6 on the odd rows.
#[tactic(auto, using(crate::proofs::Clamped::rows_le), unfolding(crate::specs::Bound::full_to))]
pub fn full_to(r: [i64; 4]) -> u32
    ensures { result ≡ full_to r }
{
    let a = edge_of_rows(r, 0, 2, true) + 3;
    let b = edge_of_rows(r, 1, 3, true) + 1;
    a.min(b) >> 3
}
