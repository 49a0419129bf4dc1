// A test entry: what one pixel of a draw emits, worked out by itself. A caller that visits every pixel of the frame inside the scissor, triangle after triangle, row after
// row, from left to right, sees the pixels that the draw emits, in its order.
#![tactic(auto)]

ghost use Rattle.std.specs.Prelude.{◌≡◌, ◌<◌};
ghost use Rattle.c_emitted.specs.Emitted.{emitted_triangle, emitted_indexed, emitted_pixel};

use combiner::Combiner;
use raster_pixel::{Fragment, Geometry, Lists, lists};
use raster_vertex::Triangle;
use rasterize_slow::Shape;

// No frame is wider or higher.
const LIMIT: u32 = 1024;

// Pixel (x, y) of a triangle. The range is looked at here, since the edges of other vertices may overflow.
fn triangle(
    antialias: bool,
    combiner: Combiner,
    cull: bool,
    t: Triangle,
    y: u32,
    x: u32,
) -> Option<Fragment>
    requires { (x < 1024) × (y < 1024) }
    ensures { result ≡ emitted_triangle antialias combiner cull t y x }
{
    if raster_admitted::out_of_range(t) {
        return None;
    }
    let shape = rasterize_slow::triangle(cull, t);
    rasterize_slow::pixel(antialias, &combiner, &shape, y, x)
}

// Pixel (x, y) of triangle i, if there is one.
#[tactic(auto, unfolding(crate::specs::Emitted::emitted_indexed))]
fn indexed(
    antialias: bool,
    combiner: Combiner,
    cull: bool,
    lists: &Lists,
    i: usize,
    y: u32,
    x: u32,
) -> Option<Fragment>
    requires { (x < 1024) × (y < 1024) }
    ensures { result ≡ emitted_indexed antialias combiner cull lists.now.vertices.now lists.now.present.now lists.now.indices.now i y x }
{
    if lists.indices.len() / 3 <= i {
        return None;
    }
    let t = lists::triangle_at(lists, i)?;
    triangle(antialias, combiner, cull, t, y, x)
}

// Pixel (x, y) of triangle i of a draw, or of its rectangle. Row and column are two numbers, as the test entry of C has them.
#[tactic(auto, unfolding(crate::specs::Emitted::emitted_pixel))]
pub fn pixel(
    antialias: bool,
    combiner: Combiner,
    cull: bool,
    geometry: Geometry,
    lists: &Lists,
    i: usize,
    y: u32,
    x: u32,
) -> Option<Fragment>
    ensures { result ≡ emitted_pixel antialias combiner cull geometry lists.now.vertices.now lists.now.present.now lists.now.indices.now i y x }
{
    if LIMIT <= x || LIMIT <= y {
        return None;
    }
    match geometry {
        Geometry::Nothing => None,
        Geometry::Rectangle(sides) => {
            let shape = Some(Shape::Rectangle(sides));
            rasterize_slow::pixel(antialias, &combiner, &shape, y, x)
        }
        Geometry::Triangles => indexed(antialias, combiner, cull, lists, i, y, x),
    }
}
