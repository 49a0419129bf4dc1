// The pixels of a draw on the lent frame (writeback.rs, `rasterize`): those of a rectangle, or of the triangles of a list. Each call draws its part and answers how
// many pixels that emitted. Target and paint stay two parameters: one is written, and the other only read.
#![tactic(auto)]

ghost use Rattle.std.specs.Prelude.{◌≤◌, length};
ghost use Rattle.combiner_resolved.specs.Resolved.{Mixed};
ghost use Rattle.raster_pixel.specs.Draw.{emitted_as};
ghost use Rattle.raster_pixel.specs.Emitted.{rectangle_emits};
ghost use Rattle.frame_paint.specs.Pixel.{DrewOn};

use crate::rows::draw_shape;
use crate::triangles::draw_triangles;
use frame_paint::Target;
use frame_paint::paint::Paint;
use raster_pixel::{Geometry, Shapes};
use raster_rectangle::Sides;

pub mod rows; // the rows of a shape
pub mod triangles; // a triangle, and the triangles of a list

// A rectangle goes by its edges, as a triangle does. Its colour is combined with the shade 1.0, and cull is ignored.
fn draw_rectangle(target: &mut Target, paint: &Paint, sides: Sides) -> u64
    ensures { let view = target.old.view in
        DrewOn paint.now.mode paint.now.combiner (rectangle_emits paint.now.mode paint.now.combiner view.scissor view.width view.height sides) target.old target.new result }
{
    draw_shape(target, paint, None, raster_rectangle::outline(sides))
}

// The pixels of a draw, and their count: with so few indices it fits. The paint is lent all the way down, so that nothing copies it.
pub fn rasterize(target: &mut Target, shapes: &Shapes) -> u64
    requires few { length shapes.now.lists.indices.now ≤ 12288 }
    requires mixed { Mixed shapes.now.combiner }
    ensures drew { DrewOn shapes.now.mode shapes.now.combiner (emitted_as target.old.view shapes.now) target.old target.new result }
{
    let paint = Paint::new(shapes.mode, shapes.combiner);
    match shapes.geometry {
        Geometry::Nothing => 0,
        Geometry::Rectangle(sides) => draw_rectangle(target, &paint, sides),
        Geometry::Triangles => draw_triangles(target, &paint, shapes),
    }
}
