// The rows of a shape, be it a triangle or a rectangle: in each, the pixels between its edges.
ghost use Rattle.std.specs.Prelude.{◌≡◌, ◌<◌};
ghost use Rattle.raster_edges.specs.Limits.{TameTri};
ghost use Rattle.frame_paint.specs.Pixel.{DrewOn};
ghost use Rattle.rasterize.specs.Shape.{shades_on, shape_emits};

use frame_paint::Target;
use frame_paint::paint::Paint;
use frame_paint::rows::draw_row;
use raster_edges::Tri;
use raster_vertex::Vertex;
use raster_vertex::row::ShadeRow;

// How a shape's pixels get their colours: each has its own shade, between those of three vertices; or all have the paint's own.
pub type Shading = Option<[Vertex; 3]>;

// The shades of row y.
fn shades_on(shading: Shading, y: u32) -> Option<ShadeRow>
    requires { y < 1024 }
    ensures { result ≡ shades_on shading y }
{
    Some(raster_vertex::row::shade_row(shading?, y))
}

// The rows inside the scissor, each from left to right: only between its outermost edges, outside which no sample lies. A row with no pixel there needs no shades.
pub fn draw_shape(target: &mut Target, paint: &Paint, shading: Shading, shape: Tri) -> u64
    requires { TameTri shape }
    ensures { DrewOn paint.now.mode paint.now.combiner (shape_emits paint.now shading shape target.old.view) target.old target.new result }
{
    let area = target.view.area();
    let rows = raster_edges::rows(shape, area.top, area.bottom);
    let mut n: u64 = 0;
    for y in rows.start..rows.end {
        let edges = raster_edges::edges_at(shape, y);
        let kept = raster_edges::bounds(edges, area.left, area.right);
        if kept.start < kept.end {
            let shades = shades_on(shading, y);
            n += draw_row(target, paint, shades, edges, y, kept.start, kept.end);
        }
    }
    n
}
