// The pixels of a triangle, and of the triangles of a list.
ghost use Rattle.std.specs.Prelude.{◌≡◌, ◌/◌, ◌<◌, ◌≤◌, length};
ghost use Rattle.combiner_resolved.specs.Resolved.{Mixed};
ghost use Rattle.raster_pixel.specs.declared.Geometry.TheVariants.{Triangles};
ghost use Rattle.frame_paint.specs.Pixel.{DrewOn};
ghost use Rattle.rasterize.specs.Triangles.{Flat, triangle_of, triangles_of};

use crate::rows::draw_shape;
use frame_paint::Target;
use frame_paint::paint::Paint;
use raster_pixel::Shapes;

// Triangle i of the list.
fn draw_triangle(target: &mut Target, paint: &Paint, flat: bool, shapes: &Shapes, i: usize) -> u64
    requires triangles { shapes.now.geometry ≡ Triangles }
    requires listed { i < length shapes.now.lists.indices.now / 3 }
    requires mixed { Mixed paint.now.combiner }
    requires flat { Flat paint.now flat }
    ensures { DrewOn paint.now.mode paint.now.combiner (triangle_of paint.now shapes.now target.old.view i) target.old target.new result }
{
    let Some(triangle) = shapes.set_up(i) else {
        return 0;
    };
    let (shape, vertices) = triangle;
    let shading = (!flat).then_some(vertices);
    draw_shape(target, paint, shading, shape)
}

// All triangles of the list. How many indices the list has is a clause, here and in both engines' `rasterize`, and no ghost field of Shapes, which would ask it of callers that
// need it not.
pub fn draw_triangles(target: &mut Target, paint: &Paint, shapes: &Shapes) -> u64
    requires triangles { shapes.now.geometry ≡ Triangles }
    requires few { length shapes.now.lists.indices.now ≤ 12288 }
    requires mixed { Mixed paint.now.combiner }
    ensures { DrewOn paint.now.mode paint.now.combiner (triangles_of paint.now shapes.now target.old.view) target.old target.new result }
{
    // Whether every pixel of a triangle has the paint's colour, and what full pixels of that need is enough for it.
    let flat = paint.even & !combiner_resolved::shaded::uses_shade(paint.combiner);
    let mut n: u64 = 0;
    for i in 0..shapes.lists.indices.len() / 3 {
        let drawn = draw_triangle(target, paint, flat, shapes, i);
        n += drawn;
    }
    n
}
