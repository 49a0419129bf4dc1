// What a draw draws.
ghost use Rattle.std.specs.Prelude.{◌≡◌, ◌/◌, ◌<◌, length, IfSome};
ghost use Rattle.std.proofs.Props.{props};
ghost use Rattle.raster_edges.specs.Limits.{TameTri};
ghost use Rattle.raster_pixel.specs.declared.Geometry.TheVariants.{Triangles};
ghost use Rattle.raster_pixel.specs.Admitted.{triangle_at};
ghost use Rattle.raster_pixel.specs.Near.{TrianglesNear};
ghost use Rattle.raster_pixel.specs.SetUp.{set_up_by};

use crate::lists::Lists;
use crate::{Geometry, lists, set_up};
use combiner::Combiner;
use raster_edges::Tri;
use raster_vertex::Vertex;
use state::RenderMode;

// Triangles near enough that nothing overflows, as those of a draw that number 7 lets through; or a rectangle, or nothing. What else an accepted draw has is a clause where it is
// needed: few indices of a function that counts every pixel, a colour for every shade of one that works out colours.
#[derive(Clone, Copy)]
pub struct Shapes<'a> {
    pub mode: RenderMode,
    pub combiner: Combiner,
    pub cull: bool,
    pub geometry: Geometry,
    pub lists: Lists<'a>,
    pub ghost near: { geometry ≡ Triangles → TrianglesNear lists.vertices.now lists.present.now lists.indices.now } by { Prim.hlevel props },
}

impl Shapes<'_> {
    // Triangle i, set up to be drawn. That there are triangles is a clause, here and in its callers: a struct of the draws that have them would be a second Shapes. And i is a
    // loop's counter.
    pub fn set_up(&self, i: usize) -> Option<(Tri, [Vertex; 3])>
        requires triangles { self.now.geometry ≡ Triangles }
        requires listed { i < length self.now.lists.indices.now / 3 }
        ensures value { result ≡ set_up_by self.now.cull (triangle_at self.now.lists.vertices.now self.now.lists.present.now self.now.lists.indices.now i) }
        ensures tame { IfSome result (λ p. TameTri p.0) }
    {
        let triangle = lists::triangle_at(&self.lists, i)?;
        set_up(self.cull, triangle)
    }
}
