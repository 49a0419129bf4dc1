// The lists of a draw, and which triangles of them are admitted.
ghost use Rattle.std.specs.Prelude.{◌≡◌, ◌+◌, ◌*◌, ◌<◌, length};
ghost use Rattle.raster_admitted.specs.Checked.{check_number};
ghost use Rattle.raster_pixel.specs.declared.Geometry.TheVariants.{Triangles};
ghost use Rattle.raster_pixel.specs.Admitted.{triangle_at, failing, admitted_of};

use crate::Geometry;
use combiner::Combiner;
use raster_admitted::Check;
use raster_vertex::Triangle;

// The three lists of a draw, as C lends them: six floats and a presence flag for each vertex, three indices for each triangle.
#[derive(Clone, Copy)]
pub struct Lists<'a> {
    pub vertices: &'a [f32],
    pub present: &'a [u8],
    pub indices: &'a [u32],
}

// Triangle i, if all its vertices are there. By its number, here and in the rasterisers' loops, and not by chunks of indices: so the definitions name it. It
// and the next are functions and no methods: a host reaches a method of Lists, and these ask that there be a triangle i.
#[tactic(auto, unfolding(crate::specs::Admitted::triangle_at))]
pub fn triangle_at(lists: &Lists, i: usize) -> Option<Triangle>
    requires { 3 * i + 2 < length lists.now.indices.now }
    ensures { result ≡ triangle_at lists.now.vertices.now lists.now.present.now lists.now.indices.now i }
{
    let at = 3 * i;
    Some(Triangle {
        a: raster_admitted::look_up(lists.vertices, lists.present, lists.indices[at])?,
        b: raster_admitted::look_up(lists.vertices, lists.present, lists.indices[at + 1])?,
        c: raster_admitted::look_up(lists.vertices, lists.present, lists.indices[at + 2])?,
    })
}

// The first check of triangle i that fails.
#[tactic(auto, unfolding(crate::specs::Admitted::failing))]
pub fn failing_check(lists: &Lists, combiner: Combiner, i: usize) -> Result<(), Check>
    requires { 3 * i + 2 < length lists.now.indices.now }
    ensures { check_number result ≡ failing combiner lists.now.vertices.now lists.now.present.now lists.now.indices.now i }
{
    let t = triangle_at(lists, i).ok_or(Check::Missing)?;
    raster_admitted::checks(combiner, t)
}

// Whether no triangle has a failing check.
fn triangles_admitted(lists: &Lists, combiner: Combiner) -> bool
    ensures { result ≡ admitted_of combiner Geometry.Triangles lists.now.vertices.now lists.now.present.now lists.now.indices.now }
{
    (0..lists.indices.len() / 3).all(|i| failing_check(lists, combiner, i).is_ok())
}

impl Lists<'_> {
    // Every rectangle is admitted, and triangles of which none has a failing check.
    #[tactic(auto, unfolding(crate::specs::Admitted::admitted_of))]
    pub fn admitted(&self, combiner: Combiner, geometry: Geometry) -> bool
        ensures { result ≡ admitted_of combiner geometry self.now.vertices.now self.now.present.now self.now.indices.now }
    {
        match geometry {
            Geometry::Nothing => false,
            Geometry::Rectangle(_) => true,
            Geometry::Triangles => triangles_admitted(self, combiner),
        }
    }
}
