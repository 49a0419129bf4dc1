// The C interface of a draw's lists: whether the draw is admitted, and what one of its pixels emits. Vertices are six floats each, in the order x, y, red, green, blue,
// alpha, and one presence byte each; three indices name a triangle. Crate exports gives the calls their C names.
#![tactic(auto)]

ghost use Rattle.std.specs.Prelude.{◌≡◌, ◌&&◌};
ghost use Rattle.raster_vertex.specs.Range.{in_range_x, in_range_y};
ghost use Rattle.raster_pixel.specs.Admitted.{admitted_of};
ghost use Rattle.c_types.specs.Convert.{combiner_from};
ghost use Rattle.c_draw.specs.Draws.{geometry_from, emitted_from, fragment_answer};

use c_answers::no_color;
use c_types::{Mode, Parts};
use combiner::Combiner;
use raster_pixel::{Fragment, Geometry, Lists};
use raster_rectangle::Sides;
use raster_vertex::Vertex;
use state::Rgba;

// What a draw covers: 0 nothing, 1 triangles, 2 the rectangle with these sides. A kind above 2 is nothing. A number beside the sides, as C has no enum with
// fields.
#[repr(C)]
#[derive(Clone, Copy)]
pub struct GeometryParts {
    pub kind: u32,
    pub left: f32,
    pub top: f32,
    pub right: f32,
    pub bottom: f32,
}

// What a pixel emits: its sample mask, its combined colour and its shade alpha. A mask of 0 is nothing, with zeros beside it, as C has
// no Option.
#[repr(C)]
#[derive(Clone, Copy)]
pub struct FragmentAnswer {
    pub mask: u32,
    pub rgba: Rgba,
    pub shade_alpha: f32,
}

#[tactic(auto, unfolding(crate::specs::Draws::geometry_from))]
impl From<GeometryParts> for Geometry {
    ghost from_gives = { λ p r. r ≡ geometry_from p };

    fn from(p: GeometryParts) -> Geometry {
        match p.kind {
            1 => Geometry::Triangles,
            2 => Geometry::Rectangle(Sides {
                left: p.left,
                top: p.top,
                right: p.right,
                bottom: p.bottom,
            }),
            _ => Geometry::Nothing,
        }
    }
}

impl From<Option<Fragment>> for FragmentAnswer {
    ghost from_gives = { λ fragment r. r ≡ fragment_answer fragment };

    fn from(fragment: Option<Fragment>) -> FragmentAnswer {
        match fragment {
            Some(fragment) => FragmentAnswer {
                mask: fragment.mask as u32,
                rgba: fragment.color,
                shade_alpha: fragment.shade_alpha,
            },
            None => FragmentAnswer {
                mask: 0,
                rgba: no_color(),
                shade_alpha: 0.0,
            },
        }
    }
}

pub fn in_range(x: f32, y: f32) -> bool
    ensures { result ≡ in_range_x x && in_range_y y }
{
    let v = Vertex {
        x,
        y,
        r: 0.0,
        g: 0.0,
        b: 0.0,
        a: 0.0,
    };
    v.in_range()
}

pub fn admitted(combiner: Parts, geometry: GeometryParts, lists: &Lists) -> bool
    ensures { result ≡ admitted_of (combiner_from combiner) (geometry_from geometry) lists.now.vertices.now lists.now.present.now lists.now.indices.now }
{
    lists.admitted(Combiner::from(combiner), Geometry::from(geometry))
}

// Pixel (x, y) of triangle i, or of the rectangle.
pub fn pixel(
    mode: Mode,
    combiner: Parts,
    cull: bool,
    geometry: GeometryParts,
    lists: &Lists,
    i: usize,
    y: u32,
    x: u32,
) -> FragmentAnswer
    ensures { result ≡ fragment_answer (emitted_from mode combiner cull geometry lists.now.vertices.now lists.now.present.now lists.now.indices.now i y x) }
{
    let fragment = c_emitted::pixel(
        mode.antialias,
        Combiner::from(combiner),
        cull,
        Geometry::from(geometry),
        lists,
        i,
        y,
        x,
    );
    FragmentAnswer::from(fragment)
}
