// The slow engine. For each triangle, or for the rectangle, it visits every pixel of the frame inside the scissor, row by row from the top and each row from the left,
// tests the pixel's eight samples one by one, and emits it. It works out no bounds, no runs of full pixels and no colours ahead; of a triangle only the edges are made
// first. Crate rasterize emits the same pixels in the same order with such shortcuts; this one is there to be read beside the console's papers. docs/RASTERISER.md
// walks through it on one triangle.
#![tactic(auto)]

ghost use Rattle.std.specs.Prelude.{◌≡◌, ◌/◌, ◌<◌, ◌≤◌, length, IfSome};
ghost use Rattle.combiner_resolved.specs.Resolved.{Mixed};
ghost use Rattle.raster_pixel.specs.declared.Geometry.TheVariants.{Triangles};
ghost use Rattle.raster_pixel.specs.Admitted.{triangle_at};
ghost use Rattle.raster_pixel.specs.Near.{CornersNear};
ghost use Rattle.raster_pixel.specs.Draw.{emitted_as};
ghost use Rattle.raster_emitted.specs.Shapes.{masks_as};
ghost use Rattle.raster_emitted.specs.Listed.{ListedIn};
ghost use Rattle.frame_paint.specs.Pixel.{DrewOn};
ghost use Rattle.rasterize_slow.specs.Shape.{sample_hit, pair_hit, shape_mask, shape_shade, optional_fragment, TameShape, triangle_shape, three_shape, walk_of, pixel_emits, row_emits, shape_emits, triangles_emits, walk_emits};
ghost use Rattle.rasterize_slow.specs.Sent.{Sent};

use crate::sink::Sink;
use combiner::Combiner;
use frame_paint::Target;
use raster_edges::Tri;
use raster_emitted::Slots;
use raster_pixel::{Fragment, Geometry, Shapes};
use raster_rectangle::Sides;
use raster_vertex::{Triangle, Vertex};
use state::Rgba;

mod sink; // where emitted pixels go

// A triangle by its edges and its vertices from the top down, or a rectangle by its sides. That nothing overflows on the edges is a clause (TameShape) and no ghost field:
// the definition of a draw makes edges of any corners, so that a field would ask a second type of edges.
#[derive(Clone, Copy)]
pub enum Shape {
    Triangle(Tri, [Vertex; 3]),
    Rectangle(Sides),
}

// ---- a triangle

// By the edges between its corners in quarters of a pixel, and its vertices from the top down. Nothing of a triangle that is culled or whose area in quarter units is 0.
pub fn triangle(cull: bool, t: Triangle) -> Option<Shape>
    requires { CornersNear t.a t.b t.c }
    ensures shape { result ≡ triangle_shape cull t }
    ensures tame { IfSome result TameShape }
{
    let (edges, vertices) = raster_pixel::set_up(cull, t)?;
    Some(Shape::Triangle(edges, vertices))
}

// Triangle i of a draw.
fn indexed(shapes: &Shapes, i: usize) -> Option<Shape>
    requires triangles { shapes.now.geometry ≡ Triangles }
    requires listed { i < length shapes.now.lists.indices.now / 3 }
    ensures shape { let lists = shapes.now.lists in
        result ≡ three_shape shapes.now.cull (triangle_at lists.vertices.now lists.present.now lists.indices.now i) }
    ensures tame { IfSome result TameShape }
{
    let (edges, vertices) = shapes.set_up(i)?;
    Some(Shape::Triangle(edges, vertices))
}

// ---- the samples of a pixel. That column and row are below 1,024 is a clause here and below: nothing keeps a place, it is the loops' two counters.

// Whether a shape holds a sample of pixel (x, y): on line 0 to 3 of its four, the left one, side 0, or the right one, side 1. On the odd lines both lie a quarter of a
// pixel further right. Line and side are numbers, since a sample's place is reckoned from them. A shape that is not there is asked as any other, and holds none.
#[tactic(auto, unfolding(crate::specs::Shape::sample_hit))]
fn sample(shape: &Option<Shape>, y: u32, x: u32, line: u32, side: u32) -> bool
    requires { (x < 1024) × (y < 1024) × (line < 4) × (side < 2) × IfSome shape.now TameShape }
    ensures { result ≡ sample_hit shape.now y x line side }
{
    match shape {
        None => false,
        Some(Shape::Triangle(t, _)) => {
            let span = raster_edges::line_at(*t, y * 4 + line);
            raster_edges::inside(span.l, span.r, x * 8 + (line & 1) * 2 + side * 4)
        }
        Some(Shape::Rectangle(sides)) => {
            let column = (line & 1) + side * 2;
            raster_rectangle::quarter_within(sides.left, sides.right, x, column)
                && raster_rectangle::quarter_within(sides.top, sides.bottom, y, line)
        }
    }
}

// The two samples of a line, the left one in the upper bit. This and the next have twins in raster_edges, over the edges of a row: here they are read from the sample up, beside
// the papers.
#[tactic(auto, unfolding(crate::specs::Shape::pair_hit))]
fn pair(shape: &Option<Shape>, y: u32, x: u32, line: u32) -> u8
    requires { (x < 1024) × (y < 1024) × (line < 4) × IfSome shape.now TameShape }
    ensures { result ≡ pair_hit shape.now y x line }
{
    ((sample(shape, y, x, line, 0) as u8) << 1) | (sample(shape, y, x, line, 1) as u8)
}

// The eight samples: bit 7 is the upper line's left one.
#[tactic(auto, unfolding(crate::specs::Shape::shape_mask))]
fn mask(shape: &Option<Shape>, y: u32, x: u32) -> u8
    requires { (x < 1024) × (y < 1024) × IfSome shape.now TameShape }
    ensures { result ≡ shape_mask shape.now y x }
{
    let a = pair(shape, y, x, 0);
    let b = pair(shape, y, x, 1);
    let c = pair(shape, y, x, 2);
    let d = pair(shape, y, x, 3);
    (a << 6) | (b << 4) | (c << 2) | d
}

// ---- what a pixel emits

// A triangle's shade at the pixel's upper left corner; a rectangle's is 1.0.
fn shade(shape: &Shape, y: u32, x: u32) -> Rgba
    requires { (x < 1024) × (y < 1024) }
    ensures { result ≡ shape_shade shape.now y x }
{
    match shape {
        Shape::Triangle(_, vertices) => raster_vertex::shade(*vertices, x as usize, y as usize),
        Shape::Rectangle(_) => combiner::full_shade(),
    }
}

// Nothing if no sample is hit; without antialias, nothing unless the upper left one is. A shape that is not there, as `triangle` answers it, holds no sample: its eight are
// tested as any other's, so that a visited pixel costs them whatever the triangle is.
#[tactic(auto, unfolding(crate::specs::Shape::shape_fragment))]
pub fn pixel(
    antialias: bool,
    combiner: &Combiner,
    shape: &Option<Shape>,
    y: u32,
    x: u32,
) -> Option<Fragment>
    requires { (x < 1024) × (y < 1024) × IfSome shape.now TameShape }
    ensures { result ≡ optional_fragment antialias combiner.now shape.now y x }
{
    let mask = mask(shape, y, x);
    if !raster_pixel::is_shown(antialias, mask) {
        return None;
    }
    let shape = shape.as_ref()?;
    let shade = shade(shape, y, x);
    let color = combiner.color(shade)?;
    Some(Fragment {
        mask,
        color,
        shade_alpha: shade.a,
    })
}

// ---- every pixel of every row: each function answers how many pixels are emitted, or the largest u64 where they are more. So no sum overflows, and a walk asks for no
// bound on the triangles.

// Pixel (x, y) of a shape, if it has something to emit. Sink and shapes stay two parameters, here and below: one is written, and the other only read.
fn visit_pixel<S: Sink>(sink: &mut S, shapes: &Shapes, shape: &Option<Shape>, y: u32, x: u32) -> u64
    requires place { (x < (S.view sink.old).width) × (y < (S.view sink.old).height) }
    requires tame { IfSome shape.now TameShape }
    ensures sent { Sent (S.took shapes.now) (pixel_emits (walk_of (S.view sink.old) shapes.now) shape.now y x) sink.old sink.new result }
{
    let Some(fragment) = pixel(shapes.mode.antialias, &shapes.combiner, shape, y, x) else {
        return 0;
    };
    let number = y * sink.view().width + x;
    sink.emit(shapes, fragment, number);
    1
}

fn visit_row<S: Sink>(sink: &mut S, shapes: &Shapes, shape: &Option<Shape>, y: u32) -> u64
    requires row { y < (S.view sink.old).height }
    requires tame { IfSome shape.now TameShape }
    ensures sent { Sent (S.took shapes.now) (row_emits (walk_of (S.view sink.old) shapes.now) shape.now y) sink.old sink.new result }
{
    let area = sink.view().area();
    let mut n: u64 = 0;
    for x in area.left..area.right {
        n = n.saturating_add(visit_pixel(sink, shapes, shape, y, x));
    }
    n
}

// A shape that is not there is walked over as any other: triangles times pixels inside the scissor are visited, whatever the triangles are.
fn visit_rows<S: Sink>(sink: &mut S, shapes: &Shapes, shape: &Option<Shape>) -> u64
    requires tame { IfSome shape.now TameShape }
    ensures sent { Sent (S.took shapes.now) (shape_emits (walk_of (S.view sink.old) shapes.now) shape.now) sink.old sink.new result }
{
    let area = sink.view().area();
    let mut n: u64 = 0;
    for y in area.top..area.bottom {
        n = n.saturating_add(visit_row(sink, shapes, shape, y));
    }
    n
}

// ---- a draw

fn visit_triangles<S: Sink>(sink: &mut S, shapes: &Shapes) -> u64
    requires { shapes.now.geometry ≡ Triangles }
    ensures sent { let s = shapes.now in
        Sent (S.took s) (triangles_emits (walk_of (S.view sink.old) s) s.cull s.lists.vertices.now s.lists.present.now s.lists.indices.now) sink.old sink.new result }
{
    let mut n: u64 = 0;
    for i in 0..shapes.lists.indices.len() / 3 {
        let shape = indexed(shapes, i);
        n = n.saturating_add(visit_rows(sink, shapes, &shape));
    }
    n
}

fn visit<S: Sink>(sink: &mut S, shapes: &Shapes) -> u64
    ensures sent { let s = shapes.now in
        Sent (S.took s) (walk_emits (walk_of (S.view sink.old) s) s.cull s.lists.vertices.now s.lists.present.now s.lists.indices.now s.geometry) sink.old sink.new result }
{
    match shapes.geometry {
        Geometry::Nothing => 0,
        Geometry::Rectangle(sides) => {
            let shape = Some(Shape::Rectangle(sides));
            visit_rows(sink, shapes, &shape)
        }
        Geometry::Triangles => visit_triangles(sink, shapes),
    }
}

// The pixels of a draw on the lent frame, and their count: with so few indices it is exact.
pub fn rasterize(target: &mut Target, shapes: &Shapes) -> u64
    requires few { length shapes.now.lists.indices.now ≤ 12288 }
    ensures drew { DrewOn shapes.now.mode shapes.now.combiner (emitted_as target.old.view shapes.now) target.old target.new result }
{
    visit(target, shapes)
}

// The same pixels by number and mask, without a frame: they are counted, and those that are asked for are in their slots. A pixel that
// has no colour emits nothing, while the list is told by samples alone: this is why the combiner is asked for a colour for every shade.
pub fn list_pixels(slots: &mut Slots, shapes: &Shapes)
    requires { Mixed shapes.now.combiner }
    ensures { ListedIn (masks_as slots.old.view shapes.now) slots.old slots.new }
{
    visit(slots, shapes);
}
